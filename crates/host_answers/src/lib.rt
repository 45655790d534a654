// The answers of reading, writing, the run and the bounds of a pair as numbers, for the exports of crate `probe`: the number of the
// refusal, or 0, is returned, and the values are laid down in a lent list, as far as it has room. Where the answer is a refusal, every
// value is 0.
// Assumes nothing.
#![tactic(auto)]

mod calls;
mod lay;

pub use calls::{give_header, give_pair, give_size, give_totals};
pub use lay::{give, put};
