// Theorems alone: a tape tells its modules apart, part by part. This crate has no function.
#![tactic(auto)]
