// Terms of the tape, typed from the inside out (17): each name's item is sought among the known ones, and its node written.
#![tactic(auto)]

pub mod terms;

// A term's sort, the entry behind the term and the place behind its nodes.
#[derive(Clone, Copy)]
pub struct Sorted {
    pub sort: u32,
    pub next: usize,
    pub free: usize,
}
