// Structure diagrams, as definitions that compute, and what is proved of them: this crate has no code.
#![tactic(auto)]
