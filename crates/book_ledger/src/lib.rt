// The book of commands as document 01 defines it, apart from how a book stores it: definitions in specs/, both halves of demand 3 in proofs/. There is
// no code here.
#![tactic(auto)]
