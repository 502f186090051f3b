// What a module declares twice in one section (9): its entries on the tape, each held against those before it.
#![tactic(auto)]

pub mod once;
