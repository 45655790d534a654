// Equipment sheets: document 02, request U2. The check of a sheet file, and reading its lines as events in falling probability into a lent
// list.
// Assumes nothing.
#![tactic(auto)]

mod file;
mod reader;

pub use file::check;
pub use reader::{counts_in, number_in, read, read_core};

// The counts of a sheet: its nodes, its links and its lines.
#[derive(Clone, Copy)]
pub struct Counts {
    pub nodes: u64,
    pub links: u64,
    pub lines: u64,
}
