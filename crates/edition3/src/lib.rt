#![tactic(auto)]
// The 3.0 edition as a value, over the cluster descriptors of the second lent buffer; definitions and laws only.
