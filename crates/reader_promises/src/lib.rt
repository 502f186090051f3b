// Theorems alone: what ties the reader of listings to their writer, and every listing that a call gives is read back. This crate has no function.
#![tactic(auto)]
