// From tokens to entries of the tape: single steps. Each function goes on from an answer, and does nothing where that is a refusal.
#![tactic(auto)]

use types::Token;

pub mod forms;
pub mod roles;
pub mod steps;

// Where reading is: the token that is next, the nodes of the equation so far, and the entries on the tape.
#[derive(Clone, Copy)]
pub struct Place {
    pub token: Token,
    pub nodes: usize,
    pub entries: usize,
}

// A refusal: its number, and the place in the text where it is.
#[derive(Clone, Copy)]
pub struct Misread {
    pub number: u8,
    pub place: usize,
}

// How far reading came; or the refusal that it ended with.
pub type Reading = Result<Place, Misread>;
