// The state of a walk in steps (document 02, request U4): its fields, and the test whether fields that are set to anything may be gone on
// with.
// Assumes nothing.
#![tactic(auto)]

mod sound;

ghost use Rattle.std.specs.Prelude.{◌≡◌};
ghost use Rattle.walk_state.specs.States.{no_walk};

use plan::Header;
pub use sound::is_sound;

// A walk: its plan (header, links, events), what is still to come of it (the stack, and where it begins), and what it has so far: the sums
// of the pairs, how many ends it reached, how many scenarios it examined, and their mass.
#[derive(Clone, Copy)]
pub struct Walk {
    pub header: Header,
    pub links: [u8; 256],
    pub events: [u64; 512],
    pub stack: [u64; 512],
    pub sums: [u64; 2016],
    pub at: usize,
    pub reached: u64,
    pub count: u64,
    pub mass: u64,
}

// A walk of zeros.
pub fn no_walk() -> Walk
    ensures { result ≡ no_walk }
{
    let header = Header {
        nodes: 0,
        links: 0,
        events: 0,
        threshold: 0,
        cap: 0,
    };
    Walk {
        header,
        links: [0u8; 256],
        events: [0u64; 512],
        stack: [0u64; 512],
        sums: [0u64; 2016],
        at: 0,
        reached: 0,
        count: 0,
        mass: 0,
    }
}
