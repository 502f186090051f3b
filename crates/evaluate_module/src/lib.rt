// One module evaluated: the four steps, after which its normal form is kept.
#![tactic(auto)]

pub mod evaluate;
pub mod steps;
