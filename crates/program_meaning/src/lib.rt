// What the program answers and prints for each first line, as definitions that compute: this crate has no code.
#![tactic(auto)]
