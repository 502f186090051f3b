// What a module's own entries on the tape declare: its items as rows, and the checks of them. The module's entries stand from one place of
// the tape up to another.
#![tactic(auto)]

pub mod checks;
pub mod rows;
pub mod sorts;

// The module asked of: its entries stand on the tape from `from` up to `end`, and the rows of what it imports and sees, `count` of them, in the
// working memory from `rows` on.
#[derive(Clone, Copy)]
pub struct Own {
    pub from: u32,
    pub end: u32,
    pub rows: u32,
    pub count: u32,
}
