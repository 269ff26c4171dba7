// The customer's three demands, as statements over the definitions of the crates below, and their proofs collected from there. There is no code here.
#![tactic(auto)]
