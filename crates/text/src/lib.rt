// The listing of a plan file as a text: document 01, section "Listing".
// Assumes nothing.
#![tactic(auto)]

mod calls;
mod fields;
mod rows;

pub use calls::listing_text;
