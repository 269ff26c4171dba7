// What units come to, from a fresh collector on: that what it hands out whole is a transfer, and that every transfer is taken. There is no code here.
#![tactic(auto)]
