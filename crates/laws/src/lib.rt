// Laws of what is read and of what is evaluated, each walk once: this crate has no code.
#![tactic(auto)]
