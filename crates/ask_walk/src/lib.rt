// Two sets of modules, one of the old specification and one of the new, walked upwards in pairs. Each specification lies on a tape of its own, with
// its texts and its heads: `library`, `text`, `tape` and `h` are the old one's, `behind`, `other`, `more` and `g` the new one's.
#![tactic(auto)]

ghost use Rattle.std.specs.Prelude.{◌≡◌, ◌+◌, ◌-◌, ◌<◌};
ghost use Rattle.text_names.specs.Joint.{joint};
ghost use Rattle.module_set.specs.ModuleSet.{holds, nothing};
ghost use Rattle.ask_objections.specs.Objections.{told};
ghost use Rattle.modules.specs.Modules.{heads_in};
ghost use Rattle.ask_walk.specs.Walk.{next_member, same_at, with_unless, with_all, in_pairs_at, against_at, changed_at};

use ask_decision::reasons;
use ask_objections::{Why, objection_in, same_module};
use modules::{Heads, module_count, name_of_module};

// The first module of the set from number i on, below `end`; the greater of the two numbers if there is none.
fn next_member(set: u64, i: u32, end: u32) -> u32
    ensures { result ≡ next_member (holds set) i (end - i) }
{
    for k in i..end {
        if module_set::has(set, k) {
            return k;
        }
    }
    end.max(i)
}

// The first module of the set behind number i.
fn next_after(set: u64, i: u32, end: u32) -> u32
    requires { i < end }
    ensures { result ≡ next_member (holds set) (i + 1) (end - (i + 1)) }
{
    next_member(set, i + 1, end)
}

// A module without a counterpart: 3.
fn left_over(by: u32, name: u32, new_name: bool) -> Why
    ensures { result ≡ record { reason = 3; by = by; name = name; new_name = new_name } }
{
    Why {
        reason: reasons::REACHED_OTHERWISE,
        by,
        name,
        new_name,
    }
}

// The first objection of the pass to a module of the set and its counterpart, pair by pair.
fn in_pairs(
    asked: &[u8],
    library: &[u8],
    text: &[u8],
    tape: &[u32],
    h: &Heads,
    behind: &[u8],
    other: &[u8],
    more: &[u32],
    g: &Heads,
    set: u64,
    new_set: u64,
    pass: u32,
) -> Option<Why>
    ensures { told (joint library.now text.now) (joint behind.now other.now) result ≡ in_pairs_at (joint library.now text.now) tape.now (heads_in h.now) (joint behind.now other.now) more.now (heads_in g.now) asked.now (holds set) (holds new_set) pass }
{
    let count = module_count(h);
    let new_count = module_count(g);
    let mut i = next_member(set, 0, count);
    let mut j = next_member(new_set, 0, new_count);
    // a while: each turn goes on at the next modules of two sets
    while i < count {
        if new_count <= j {
            return Some(left_over(name_of_module(tape, h, i), 0, false));
        }
        if let Some(w) = objection_in(
            asked, library, text, tape, h, behind, other, more, g, pass, i, j,
        ) {
            return Some(w);
        }
        i = next_after(set, i, count);
        j = next_after(new_set, j, new_count);
    }
    if j < new_count {
        return Some(left_over(0, name_of_module(more, g, j), true));
    }
    None
}

// The first objection, pass by pass.
pub fn against(
    asked: &[u8],
    library: &[u8],
    text: &[u8],
    tape: &[u32],
    h: &Heads,
    behind: &[u8],
    other: &[u8],
    more: &[u32],
    g: &Heads,
    set: u64,
    new_set: u64,
) -> Option<Why>
    ensures { told (joint library.now text.now) (joint behind.now other.now) result ≡ against_at (joint library.now text.now) tape.now (heads_in h.now) (joint behind.now other.now) more.now (heads_in g.now) asked.now (holds set) (holds new_set) }
{
    for pass in 0..4 {
        if let Some(w) = in_pairs(
            asked, library, text, tape, h, behind, other, more, g, set, new_set, pass,
        ) {
            return Some(w);
        }
    }
    None
}

// The set with new module j, if it is not as old module i.
fn with_changed(
    library: &[u8],
    text: &[u8],
    tape: &[u32],
    h: &Heads,
    behind: &[u8],
    other: &[u8],
    more: &[u32],
    g: &Heads,
    i: u32,
    j: u32,
    set: u64,
) -> u64
    ensures { holds result ≡ with_unless (same_at (joint library.now text.now) tape.now (heads_in h.now) (joint behind.now other.now) more.now (heads_in g.now) i j) j (holds set) }
{
    if same_module(library, text, tape, h, behind, other, more, g, i, j) {
        return set;
    }
    module_set::with(set, j)
}

// The modules of the new set that are not as their counterparts.
pub fn changed_set(
    library: &[u8],
    text: &[u8],
    tape: &[u32],
    h: &Heads,
    behind: &[u8],
    other: &[u8],
    more: &[u32],
    g: &Heads,
    set: u64,
    new_set: u64,
) -> u64
    ensures { holds result ≡ with_all nothing (changed_at (joint library.now text.now) tape.now (heads_in h.now) (joint behind.now other.now) more.now (heads_in g.now) (holds set) (holds new_set)) }
{
    let count = module_count(h);
    let new_count = module_count(g);
    let mut all = module_set::empty();
    let mut i = next_member(set, 0, count);
    let mut j = next_member(new_set, 0, new_count);
    // a while: each turn goes on at the next modules of two sets
    while i < count {
        if new_count <= j {
            return all;
        }
        all = with_changed(library, text, tape, h, behind, other, more, g, i, j, all);
        i = next_after(set, i, count);
        j = next_after(new_set, j, new_count);
    }
    all
}
