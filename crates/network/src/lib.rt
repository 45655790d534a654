// The effective topology of a scenario: what has failed, the working nodes and links, and the neighbours of each node. Document 01, section
// "Effective topology".
// Assumes nothing.
#![tactic(auto)]

mod failing;
mod rows;
mod table;
mod working;

pub use failing::{beside, failed_by};
pub use rows::neighbours;
pub use table::links_at;
pub use working::{working_links, working_nodes};

// What has failed: the set of nodes, and the set of links in two words.
#[derive(Clone, Copy)]
pub struct Failed {
    pub nodes: u64,
    pub low: u64,
    pub high: u64,
}

impl Failed {
    // Nothing has failed.
    pub const NONE: Failed = Failed {
        nodes: 0,
        low: 0,
        high: 0,
    };
}

// A set of links in two words.
#[derive(Clone, Copy)]
pub struct Links {
    pub low: u64,
    pub high: u64,
}
