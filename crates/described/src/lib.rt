#![tactic(auto)]
// Theorems on the writer (document 02, No. 9, "Our box as a device"): this crate has no code. specs/ says what is asked, of what the writer and the
// reader promise; proofs/ has the proofs.
