// Theorems on the instants that dates give, and on the order of dates (no code): definitions in specs/, theorems in proofs/.
#![tactic(auto)]
