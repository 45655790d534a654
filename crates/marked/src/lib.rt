// The twelve marked plans: document 01, section "Marked plans". Definitions and one theorem only.
// Assumes nothing.

#![tactic(auto)]
