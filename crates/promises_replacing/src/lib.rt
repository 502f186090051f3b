// Theorems alone: an operator may be replaced by a fresh plain function. This crate has no function.
#![tactic(auto)]
