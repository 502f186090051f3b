// Variables and equations, written to the tape.
#![tactic(auto)]

pub mod equations;
