// Where a normal form lies in the working memory, and how much of it there is; and how a check ends.
#![tactic(auto)]

pub mod equations;

// The words of a parameter, which are its name and the name of the module that declares it; of an equation's row; and of a form in the table
// of those that are kept. Each as a count of words, or as a step from place to place.
pub const SLOT_SIZE: u32 = 2;

pub const SLOT_STEP: usize = SLOT_SIZE as usize;

pub const EQUATION_SIZE: u32 = 8;

pub const EQUATION_STEP: usize = EQUATION_SIZE as usize;

pub const FORM_STEP: usize = 16;

// Places are words of the working memory; a node is one word.
#[derive(Clone, Copy)]
pub struct Form {
    pub parameters: u32,
    pub parameter_count: u32,
    pub visible: u32,
    pub visible_count: u32,
    pub hidden: u32,
    pub hidden_count: u32,
    pub equations: u32,
    pub equation_count: u32,
    pub nodes: u32,
    pub node_count: u32,
}

// An equation's row: its module's number, its position there, its tag, how many conditions it has, and its nodes: the conclusion's two terms
// and then each condition's, in prefix order, from `start` of the form's nodes on.
#[derive(Clone, Copy)]
pub struct EquationRow {
    pub home: u32,
    pub position: u32,
    pub tag: u32,
    pub conditions: u32,
    pub start: u32,
    pub count: u32,
}

// The culprit of a refusal: the word of its name, and where a binding's pair is wrong the word of the actual name; 0 for a blank one.
#[derive(Clone, Copy)]
pub struct Culprit {
    pub name: u32,
    pub actual: u32,
}

// Why a check or an evaluation ends without passing: the refusal's number and the culprit.
#[derive(Clone, Copy)]
pub struct Refusal {
    pub number: u32,
    pub culprit: Culprit,
}

// A part of the working memory from `low` up to `high`, in which a normal form is made: its parts in this order, each with room for so many
// names, rows or nodes, then the notes of visible and of hidden items, and the order table.
#[derive(Clone, Copy)]
pub struct Block {
    pub low: u32,
    pub parameters: u32,
    pub visible: u32,
    pub hidden: u32,
    pub equations: u32,
    pub nodes: u32,
    pub visible_notes: u32,
    pub hidden_notes: u32,
    pub order: u32,
    pub high: u32,
    pub equation_room: u32,
    pub node_room: u32,
}
