// Names and runs of digits compared where they stand, proved of the meaning's order of names alone: this crate has no code.
#![tactic(auto)]
