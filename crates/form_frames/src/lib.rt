// Nothing but these places changes, and what lies apart from them stays: laws alone, this crate has no code.
#![tactic(auto)]
