// Several thresholds in one walk: document 02, request U8.
// Assumes nothing.
#![tactic(auto)]

mod blocks;
mod call;
mod lists;

pub use call::thresholds;

// A header without a threshold: how many nodes, links and events there are, and the cap.
#[derive(Clone, Copy)]
pub struct CommonHeader {
    pub nodes: u64,
    pub links: u64,
    pub events: u64,
    pub cap: u64,
}

// What the call answers: for each of 16 places, the examined count, complete (1 or 0) and E. Three arrays, since the definition `answer_of`
// has a list of the counts, one of the flags and one of the masses.
#[derive(Clone, Copy)]
pub struct Answered {
    pub count: [u64; 16],
    pub complete: [u64; 16],
    pub mass: [u64; 16],
}
