// No code: what holds of a book that is saved and read back (proofs/).
#![tactic(auto)]
