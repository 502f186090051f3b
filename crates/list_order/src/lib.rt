// The rows of a normal form put in the order of its listing: compared as document 01 orders them, order tables of row numbers, and rows
// copied in that order.
#![tactic(auto)]

pub mod comparing;
pub mod copying;
pub mod sorting;

// A table of rows to be put in order, by the places of the working memory where it stands: visible items; the sorts among hidden items;
// hidden items, with the place and the number of the hidden sorts in order; equations, with the places of the visible items, of the rows
// and of the nodes. An enum: the contracts of sorting speak of the table, and a closure that compares would have to promise an order.
#[derive(Clone, Copy)]
pub enum Table {
    Visible(u32),
    Sorts(u32),
    Hidden(u32, u32, u32),
    Equations(u32, u32, u32),
}
