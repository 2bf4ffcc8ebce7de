#![tactic(auto)]
// Theorems on the reader: this crate has no code. specs/ says what a configuration is, and the papers' table of its refusals; proofs/
// has what is proved of what the reader promises: accepted exactly there, refused exactly so, and what its answer and its sheet show.
