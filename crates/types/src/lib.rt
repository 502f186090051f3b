// The types that code and definition share. This crate has no function.
#![tactic(auto)]

// A token: its kind, the place of its first byte, and the place after its last.
#[derive(Clone, Copy)]
pub struct Token {
    pub kind: u8,
    pub start: usize,
    pub end: usize,
}

// The part of a text that declares a module, from the place of its first byte to the place after its last; nothing is from 0 to 0. It
// is marked where that text is the library.
#[derive(Clone, Copy)]
pub struct Part {
    pub marked: bool,
    pub start: usize,
    pub end: usize,
}
