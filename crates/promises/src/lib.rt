// Promises over the meaning, proved of the definitions alone: this crate has no code.
#![tactic(auto)]
