// Theorems alone: the order of import expressions, and one of them twice, change nothing. This crate has no function.
#![tactic(auto)]
