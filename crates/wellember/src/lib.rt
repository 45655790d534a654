// What the host program in C calls: document 01, "Further readings of a plan". The check of a plan file and the bounds of one pair, on
// numbers and byte slices. include/wellember.h declares both functions for C.
// Assumes nothing.
#![tactic(auto)]

mod host;

pub use host::{wellember_check, wellember_pair};
