// Equations of the tape, typed (17): the terms of their two sides have one sort, and each equation has its row written.
#![tactic(auto)]

pub mod equations;

// How many sides were kept, the entry behind the last and the place behind their nodes.
#[derive(Clone, Copy)]
pub struct Counted {
    pub count: u32,
    pub next: usize,
    pub free: usize,
}

// A module's number, the end of its equations on the tape, and where their rows and the form's nodes begin.
#[derive(Clone, Copy)]
pub struct Module {
    pub home: u32,
    pub end: usize,
    pub rows: usize,
    pub nodes: usize,
}

// How many equations there are, and the place behind their nodes.
#[derive(Clone, Copy)]
pub struct Equated {
    pub count: u32,
    pub free: usize,
}
