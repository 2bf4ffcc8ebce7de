#![tactic(auto)]
// An edition of the class definition, as a value, and the Audio 1.0 edition; definitions and laws only. What is said of editions in
// general, and the code that goes by IDs and sources, knows of none in particular.
