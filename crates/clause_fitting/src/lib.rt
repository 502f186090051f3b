// Whether the actual module has what the formal items need under the pairs of a binding, and which formal names no pair binds.
#![tactic(auto)]

pub mod formals;
pub mod items;
pub mod sorts;
