// The checks after each clause and each union: parameters of one name, clashes, overloading, and room.
#![tactic(auto)]

pub mod checked;
pub mod clashes;
pub mod consistency;
pub mod room;
