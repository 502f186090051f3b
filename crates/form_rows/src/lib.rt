// Items, origins and sorts as words of the working memory: rows moved in and out as structs by value, and the tests on them.
#![tactic(auto)]

use form_sections::Section;

pub mod entries;
pub mod kinds;
pub mod rows;
pub mod sections;

// The home module's name, the section, and the place on the tape of the declaration.
#[derive(Clone, Copy)]
pub struct Origin {
    pub home: u32,
    pub section: Section,
    pub place: u32,
}

// An item, of one of the `kinds`. The output, or a variable's sort, is the last of sorts.
#[derive(Clone, Copy)]
pub struct Row {
    pub standing: Section,
    pub name: u32,
    pub kind: u32,
    pub origin: Origin,
    pub sorts: [u32; 9],
}

// The words of an item's row in the working memory, as a count of words and as a step from place to place.
pub const ROW_SIZE: u32 = 16;

pub const ROW_STEP: usize = ROW_SIZE as usize;
