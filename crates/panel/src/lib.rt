// A walk in steps: document 02, request U4. One call begins a walk, one goes on with it, and looks at it show what it has so far.
// Assumes nothing.
#![tactic(auto)]

mod calls;
mod looks;

pub use calls::{begin, go_on, power_up};
pub use looks::{look, look_pair};

// How many ends all go-on calls together may still reach.
#[derive(Clone, Copy)]
pub struct Quota {
    pub left: u64,
}
