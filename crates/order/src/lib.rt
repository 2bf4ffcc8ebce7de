#![tactic(auto)]
// "Order carries no meaning": this crate has no code. specs/ says what another order is, and when two tables of refusals and two tables of
// controls are alike; proofs/ has that no rule of the papers, and no load or request, sees the order of the run's descriptors.
