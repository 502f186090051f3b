// Declarations, origins, sorts, types and items compared: what makes two items one.
#![tactic(auto)]

pub mod declarations;
pub mod sorts;
