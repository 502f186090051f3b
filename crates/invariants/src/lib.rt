// What is read against the sizes of document 01, and the hidden items of what is evaluated: this crate has no code.
#![tactic(auto)]
