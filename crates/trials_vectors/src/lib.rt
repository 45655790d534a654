// What the test programs share: comparing a result with what it should be, and plans of known bytes.
// Differences are printed on standard output; where that fails, the error is returned.
#![tactic(auto)]

mod compare;
mod data;

pub use compare::{all_same, same, same_at, same_list, same_part};
pub use data::{
    BYTE, WORD, accepted, full_events, header, large_events, large_file, many_links, refused,
    written,
};
