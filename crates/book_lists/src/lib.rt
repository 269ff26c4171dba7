// Lists of things that have a key, a number: the operations by which the book is defined, and their laws. There is no code here.
#![tactic(auto)]
