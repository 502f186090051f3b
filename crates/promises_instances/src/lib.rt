// Texts that meet the premises of the promises, computed: this crate has no code.
#![tactic(auto)]
