// M's own declarations joined to what it imports: its parameters, its visible items, and its hidden ones behind them; and the checks
// of them all.
#![tactic(auto)]

pub mod checking;
pub mod items;
pub mod joining;
pub mod parameters;

// How many parameters there are, visible rows, and own hidden rows behind them.
#[derive(Clone, Copy)]
pub struct OwnRows {
    pub parameter_count: u32,
    pub visible_count: u32,
    pub hidden_count: u32,
}
