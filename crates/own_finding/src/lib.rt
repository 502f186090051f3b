// What typing a name asks (17): the item that it is, sought among the known ones, its node's word, and how many arguments it may have.
#![tactic(auto)]

pub mod arguments;
pub mod find;

// The known items: `count` rows from `base` on, the visible ones and then M's own hidden ones; before these the form has `hidden` rows
// of hidden items. The tape ends at `tape`.
#[derive(Clone, Copy)]
pub struct Known {
    pub tape: usize,
    pub base: u32,
    pub count: u32,
    pub visible: u32,
    pub hidden: u32,
}
