// What holds of every reading, as theorems on the reader's definitions: this crate has no code.
#![tactic(auto)]
