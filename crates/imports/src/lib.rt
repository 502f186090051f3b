// What a module imports: each import expression with its clauses in order, and the results united from left to right.
#![tactic(auto)]

pub mod imports;
pub mod runs;
pub mod turns;
