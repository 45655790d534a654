// Reading a plan file into lent lists: document 01, section "Plan file".
// `read_input` reads it into arrays that have room for every plan.
// Assumes nothing.
#![tactic(auto)]

mod input;
mod reader;

pub use input::read_input;
pub use reader::{Members, members_of, put_event, read, read_at, read_core};
