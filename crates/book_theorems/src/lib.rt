// What calls on a book come to, from a fresh book on: demand 3 of the book with its 96 places. There is no code here.
#![tactic(auto)]
