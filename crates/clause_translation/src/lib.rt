// Rows of items under new names: what a renaming, a binding or a mere import makes of a row.
#![tactic(auto)]

pub mod formals;
pub mod modes;
pub mod rows;

// How a row is translated, by one of the `modes`: pairs stand on the tape from `pairs` on, and the items to be bound, of the parameter, in a table
// of `count` rows from `visible` on. A struct with the kind as a number: the definitions of clauses and unions read its fields.
#[derive(Clone, Copy)]
pub struct Mode {
    pub kind: u32,
    pub pairs: u32,
    pub parameter: u32,
    pub visible: u32,
    pub count: u32,
}
