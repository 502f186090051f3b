// The clauses of an import expression: renaming, 14, and for binding its parameter, 15, and where formal items are found once they are bound.
#![tactic(auto)]

pub mod notes;
pub mod pairs;
pub mod parameters;
pub mod renamings;
pub mod searches;
pub mod sorts;
