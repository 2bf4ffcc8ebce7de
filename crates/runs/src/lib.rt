#![tactic(auto)]
// Theorems over runs of loads and requests: this crate has no code. specs/ says what a run is (Runs), the papers' rows (RequestRows), what a
// step and a run do (Promises) and that a request of several controls is the single requests in turn (InTurn); proofs/ what is true of every
// run: what an accepted step was (Taken, Kept), what it does (Moved, Alone), what a Get answers (Answers), the numbers (Refusals, Rows), and
// InTurn.
