// What the test programs of walks in steps share: document 02, request U4. Holding what a look shows, what a go-on answers, and a whole
// walk, to what it should be.
// The plan of `table` is worked out by hand.
// Differences are printed on standard output; where that fails, the error is returned.
#![tactic(auto)]

mod compare;
mod table;
mod walks;

pub use compare::{FULL, WHOLE, after, answered, bounds, left_after, less, totals};
pub use table::{begun, shown, went_on, wide_at};
pub use walks::same_walk;
