// Events as a lent list of records: document 01, section "Plan file". Every function that takes a list of records is thin over
// functions on arrays and numbers. Assumes nothing.
#![tactic(auto)]

mod calls;
mod lists;

pub use calls::write_records;
pub use lists::{fill, flatten, used_words};

// A shared-risk event: its probability in units of 10^-9, its set of nodes, its links 0 to 63 and its links 64 to 127.
#[derive(Clone, Copy)]
pub struct Event {
    pub probability: u64,
    pub nodes: u64,
    pub links_low: u64,
    pub links_high: u64,
}
