// Which orders some valid CB record gives: the theorem that the book's test for them says exactly that. There is no code here.
#![tactic(auto)]
