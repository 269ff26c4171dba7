// Both sides of each line: the cases of document 01 that are marked P, one table in specs/ under one theorem in proofs/. No code.
#![tactic(auto)]
