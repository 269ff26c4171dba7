// What is written is read back, as theorems on the definitions of the reader and of the written form: this crate has no code.
#![tactic(auto)]
