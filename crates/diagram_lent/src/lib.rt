// The lines of a diagram that are drawn, and the answer that they make: this crate has no code.
#![tactic(auto)]
