// From tokens to entries of the tape: declarations and imports. Each function goes on from an answer, and does nothing where that is a refusal.
#![tactic(auto)]

pub mod declarations;
pub mod functions;
pub mod imports;
