// Which mistake a binding has: its pairs, 22 to 26, and a formal name without one, 27.
#![tactic(auto)]

pub mod bindings;
pub mod formals;
