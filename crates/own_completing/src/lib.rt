// A module's own declarations joined to what it imports: its items and their checks, its equations, 17, the hidden parts united, and room for
// it and for all modules together, 18.
#![tactic(auto)]

pub mod complete;
pub mod hidden;
pub mod room;
pub mod said;

// What the normal forms of the modules evaluated so far have together.
#[derive(Clone, Copy)]
pub struct Totals {
    pub items: u32,
    pub equations: u32,
    pub nodes: u32,
}
