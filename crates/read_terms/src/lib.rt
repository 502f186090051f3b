// Terms, written to the tape.
#![tactic(auto)]

pub mod term;
