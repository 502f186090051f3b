// The grammar as it writes the tape, against the grammar of the meaning: this crate has no code.
#![tactic(auto)]
