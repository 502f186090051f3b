// What is drawn of modules by their numbers on a tape, and what is still to be drawn while boxes are open: this crate has no code.
#![tactic(auto)]
