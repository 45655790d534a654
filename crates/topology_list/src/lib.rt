// The topology list: document 01, section "Further readings of a plan".
// Assumes nothing.
#![tactic(auto)]

mod calls;
mod ends;
mod entries;

pub use calls::topologies;

// An effective topology: the working nodes, the working links 0 to 63 and the working links 64 to 127.
#[derive(Clone, Copy)]
pub struct Topology {
    pub nodes: u64,
    pub low: u64,
    pub high: u64,
}
