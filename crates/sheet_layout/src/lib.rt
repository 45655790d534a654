// Laws of the sheet file's layout and of the events that a sheet becomes: document 02, request U2. Bytes are accepted exactly where they are
// the layout of a valid sheet, and its events are those of a plan that is accepted. No code; assumes nothing.

#![tactic(auto)]
