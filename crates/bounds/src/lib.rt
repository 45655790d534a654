// The run over all pairs and the bounds of one pair: document 01, section "Bounds of a pair"; the run with windows: document 02, U7.
// Assumes nothing.
#![tactic(auto)]

mod ends;
mod full_walk;
mod one_pair;
mod runs;

pub use ends::{examine, go_on};
pub use full_walk::{none_left, walk_all};
pub use one_pair::{accept_pair, pair, pair_in};
pub use runs::{bounds_test, run, run_at};

// Where the stack of the walk begins, how many ends may still be reached, how many scenarios are examined so far, and their mass.
#[derive(Clone, Copy)]
pub struct Tally {
    pub at: usize,
    pub left: u64,
    pub count: u64,
    pub mass: u64,
}

// The number of scenarios examined, whether the walk is complete (1 or 0), and the mass examined (E).
#[derive(Clone, Copy)]
pub struct Totals {
    pub count: u64,
    pub complete: u64,
    pub mass: u64,
}

// The two bounds of a pair.
#[derive(Clone, Copy)]
pub struct PairBounds {
    pub lower: u64,
    pub upper: u64,
}
