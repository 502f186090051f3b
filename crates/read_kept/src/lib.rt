// Where reading is within a term, kept as words, and the names of a term.
#![tactic(auto)]

pub mod kept;
pub mod nodes;
