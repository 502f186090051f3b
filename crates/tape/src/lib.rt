// The tape's entries as definitions; the code that belongs to them are the roles.
#![tactic(auto)]

pub mod roles;
