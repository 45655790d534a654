// The walk for several thresholds with what each one gains: document 02, request U8. The bounds of a threshold stand in its block of a lent
// list.
// Assumes nothing.
#![tactic(auto)]

mod paths;
mod walking;

pub use walking::walk_thresholds;

// The numbers of 16 thresholds: for each what is left of its room, how many scenarios it examined, and their mass.
#[derive(Clone, Copy)]
pub struct PlaceNumbers {
    pub rooms: [u64; 16],
    pub counts: [u64; 16],
    pub masses: [u64; 16],
}
