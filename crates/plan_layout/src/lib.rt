// Laws of the plan file's layout: document 01, section "Plan file". A list of bytes is accepted exactly where it is the layout of a valid
// plan. No code; assumes nothing.

#![tactic(auto)]
