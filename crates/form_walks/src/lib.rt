// Loops and walks, each proved once for whatever is asked on the way: this crate has no code.
#![tactic(auto)]
