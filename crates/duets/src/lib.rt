#![tactic(auto)]
// Theorems over runs of the duet box: this crate has no code. specs/ says what a run is (Steps, StepsTold), that one side learns nothing of the other
// (Isolation), demand 2 of both sides (DuetRuns), the refusals row by row (DuetRows), and what the stretch shows (Stretches); proofs/ has their proofs under the same names.
