// Further readings of a plan: document 01, section "Further readings of a plan".
// Assumes nothing.
#![tactic(auto)]

mod ratio;
mod search;
mod yearly;

pub use ratio::figure;
pub use search::witness;
pub use yearly::{downtime, seconds_of};

// Seconds of a year, for a lower and an upper mass.
#[derive(Clone, Copy)]
pub struct Seconds {
    pub lower: u64,
    pub upper: u64,
}

// Shares of mass, rounded: the part of the mass examined that disconnects the pair, and the part of one whole that is examined.
#[derive(Clone, Copy)]
pub struct Shares {
    pub disconnected: f64,
    pub examined: f64,
}
