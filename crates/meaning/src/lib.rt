// Document 01 as definitions; its code are the constants that they name.
#![tactic(auto)]

pub mod numbers;
