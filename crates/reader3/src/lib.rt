#![tactic(auto)]
// What is proved of the reader of both editions; definitions and laws only.
