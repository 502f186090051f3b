// Theorems: which modules must be asked again before a stored visible part is shown. Its code are the reasons.
#![tactic(auto)]

pub mod reasons;
