// Exact sums over all sets of events, and the enclosure: document 01, section "Bounds of a pair". Definitions and laws only.
// Assumes nothing.

#![tactic(auto)]
