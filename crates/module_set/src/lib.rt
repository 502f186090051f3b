// A set of modules as one mask: module k is in the set where binary digit k is 1. A text has at most 64 modules.
#![tactic(auto)]

ghost use Rattle.std.specs.Prelude.{◌≡◌};
ghost use Rattle.module_set.specs.ModuleSet.{holds, nothing, added, either, counted};

// The set without modules.
pub fn empty() -> u64
    ensures { holds result ≡ nothing }
{
    0
}

// Is module k in the set?
pub fn has(set: u64, k: u32) -> bool
    ensures { result ≡ holds set k }
{
    if k < 64 {
        return (set >> k) & 1 == 1;
    }
    false
}

// The set with module k, if there is such a module.
pub fn with(set: u64, k: u32) -> u64
    ensures { holds result ≡ added k (holds set) }
{
    if 64 <= k {
        return set;
    }
    set | (1 << k)
}

// The modules of both sets.
pub fn joined(a: u64, b: u64) -> u64
    ensures { holds result ≡ either (holds a) (holds b) }
{
    a | b
}

// How many modules are in the set.
pub fn count(set: u64) -> u32
    ensures { result ≡ counted (holds set) 64 }
{
    set.count_ones()
}
