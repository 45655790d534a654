// Reach and disconnected pairs: document 01, section "Effective topology".
// Assumes nothing.
#![tactic(auto)]

mod pairs;
mod rounds;

pub use pairs::{is_disconnected, reach_from};
pub use rounds::reach as reach_by_rows;

// What a node reaches, and in how many rounds: the number of the first one, counted from 1, that adds no node.
#[derive(Clone, Copy)]
pub struct Reach {
    pub set: u64,
    pub rounds: u64,
}
