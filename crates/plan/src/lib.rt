// The plan file: document 01, section "Plan file". The check of a file.
// Assumes nothing.
#![tactic(auto)]

mod bytes;
mod file;

pub use bytes::{byte_at, left_of, number_at};
pub use file::{check, event_size, header_of, member_at, members_refusal, rank_at};

// The numbers of a plan: the counts of nodes, links and events, the threshold, and the greatest number of ends of the walk (cap).
#[derive(Clone, Copy)]
pub struct Header {
    pub nodes: u64,
    pub links: u64,
    pub events: u64,
    pub threshold: u64,
    pub cap: u64,
}

// A member of an event, by its number.
#[derive(Clone, Copy)]
pub enum Element {
    Node(u64),
    Link(u64),
}
