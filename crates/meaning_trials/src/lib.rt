// Document 01's trials, computed from its definitions: this crate has no code.
#![tactic(auto)]
