#![tactic(auto)]
// Theorems on what the customer asked: this crate has no code. specs/ says each demand in the papers' words, of what the entry points of
// the layers promise; proofs/ has the proofs.
