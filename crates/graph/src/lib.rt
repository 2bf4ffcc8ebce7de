#![tactic(auto)]
// The upstream graph of a run, whatever its entities, its clusters and its rules are: when ranks exist, and what clusters a rule
// gives out; passes put each source before its user, and one sweep goes along their order. Definitions and laws stand in specs/;
// this crate has no code.
