// The places of the pairs in their order, the test of a pair, adding a mass to the entries of the pairs that a topology disconnects, and
// laying the bounds of all pairs down: document 01, section "Bounds of a pair". Assumes nothing.
#![tactic(auto)]

mod add;
mod give;
mod places;

pub use add::add_cut;
pub use give::{clear, copy_raised, give_bounds};
pub use places::{pair_count, pair_test, place_of, start_of};
