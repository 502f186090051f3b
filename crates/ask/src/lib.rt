// Whether a stored visible part of a module may be kept: from the old specification and the new one, each of two texts. Both are read into the lent
// working memory, each onto a tape of its own, or onto one where the texts are the same, and the modules that the asked one reaches are compared in
// pairs (`ask_walk`). A module's name by its number (`ask_names`) is handed on.
#![tactic(auto)]

ghost use Rattle.std.specs.Prelude.{◌≡◌, ◌&&◌, [], ◌≤◌, length};
ghost use Rattle.meaning.specs.Numbers.{memory_size};
ghost use Rattle.meaning.specs.Names.{same};
ghost use Rattle.meaning.specs.Texts.{two_texts, read_texts};
ghost use Rattle.meaning.specs.Reached.{short_or_blank};
ghost use Rattle.text_names.specs.Joint.{joint};
ghost use Rattle.ask_decision.specs.Decide as Meaning;
ghost use Rattle.ask_decision.specs.Decide.{why, ask_again, unless_against, deciding};
ghost use Rattle.module_set.specs.ModuleSet.{holds};
ghost use Rattle.form_layout.specs.Layout.{tape_end};
ghost use Rattle.form.specs.Memory.{part};
ghost use Rattle.modules.specs.Modules.{reached_set, heads_in};
ghost use Rattle.ask_objections.specs.Objections.{why_of};
ghost use Rattle.ask_walk.specs.Walk.{against_at, changed_at};
ghost use Rattle.ask_names.specs.Steps.{Spoken};
ghost use Rattle.ask.specs.Decided.{nameless_struct, ask_struct, Tells, Decided};

use answer::{Name, blank, name_in, short_or_blank};
use ask_decision::reasons;
pub use ask_names::module_name;
use ask_objections::Why;
use ask_walk::{against, changed_set};
use form_layout::tape_end;
use meaning::numbers;
use memory::memory_size;
use module_heads::find_heads;
use modules::{HEADS, Heads, find_asked, module_count, reached};
use read_both::read_both;
use text_names::same_bytes;

// What to do before the stored part of the asked module is shown. `answer` is 0: keep it once the modules of `set`, by their numbers in the new
// specification, are answered 0; 1: ask the module itself, for the reason, with the module concerned and another name; 2: one of the two is not
// read, the new one where `in_new` says so, with the refusal's number and place; 19: too little working memory is lent. What is not told is 0.
// No enum of these ways: C is handed the number and all values beside it, told or not.
#[derive(Clone, Copy)]
pub struct Decision {
    pub answer: u32,
    pub set: u64,
    pub reason: u32,
    pub by: Name,
    pub name: Name,
    pub in_new: bool,
    pub in_library: bool,
    pub number: u8,
    pub place: usize,
}

// ---- the four answers

// 0 after the modules of the set, 2 with the refusal, or 19: no reason is told, and no name.
fn nameless(
    answer: u32,
    set: u64,
    in_new: bool,
    in_library: bool,
    number: u8,
    place: usize,
) -> Decision
    ensures { result ≡ nameless_struct answer set in_new in_library number place }
{
    let none = blank();
    Decision {
        answer,
        set,
        reason: 0,
        by: none,
        name: none,
        in_new,
        in_library,
        number,
        place,
    }
}

// 1, for the reason and with these names.
fn ask(reason: u32, by: Name, name: Name) -> Decision
    ensures { result ≡ ask_struct reason by name }
{
    Decision {
        answer: 1,
        set: 0,
        reason,
        by,
        name,
        in_new: false,
        in_library: false,
        number: 0,
        place: 0,
    }
}

// 1, where no module is called as asked.
fn absent(asked: &[u8], reason: u32) -> Decision
    ensures { Tells result (ask_again (why reason (short_or_blank asked.now) [])) }
{
    let by = short_or_blank(asked);
    let none = blank();
    ask(reason, by, none)
}

// 1, as an objection says.
fn objected(library: &[u8], text: &[u8], behind: &[u8], other: &[u8], w: Why) -> Decision
    ensures { Tells result (ask_again (why_of (joint library.now text.now) (joint behind.now other.now) w)) }
{
    let by = name_in(library, text, w.by);
    let in_new = w.new_name;
    if in_new {
        let name = name_in(behind, other, w.name);
        return ask(w.reason, by, name);
    }
    let name = name_in(library, text, w.name);
    ask(w.reason, by, name)
}

// ---- the decision

// The decision where the asked module reaches these sets of modules.
fn decide_sets(
    asked: &[u8],
    library: &[u8],
    text: &[u8],
    tape: &[u32],
    h: &Heads,
    behind: &[u8],
    other: &[u8],
    more: &[u32],
    g: &Heads,
    set: u64,
    new_set: u64,
) -> Decision
    requires { (heads_in g.now).count ≤ 64 }
    ensures { Tells result (unless_against (against_at (joint library.now text.now) tape.now (heads_in h.now) (joint behind.now other.now) more.now (heads_in g.now) asked.now (holds set) (holds new_set)) (changed_at (joint library.now text.now) tape.now (heads_in h.now) (joint behind.now other.now) more.now (heads_in g.now) (holds set) (holds new_set))) }
{
    match against(
        asked, library, text, tape, h, behind, other, more, g, set, new_set,
    ) {
        Some(w) => objected(library, text, behind, other, w),
        None => {
            let first = changed_set(library, text, tape, h, behind, other, more, g, set, new_set);
            nameless(0, first, false, false, 0, 0)
        }
    }
}

// The decision where the asked module is number k of the old specification and number new_k of the new one.
fn decide_reached(
    asked: &[u8],
    library: &[u8],
    text: &[u8],
    tape: &[u32],
    h: &Heads,
    behind: &[u8],
    other: &[u8],
    more: &[u32],
    g: &Heads,
    k: u32,
    new_k: u32,
) -> Decision
    requires { (heads_in g.now).count ≤ 64 }
    ensures { Tells result (unless_against (against_at (joint library.now text.now) tape.now (heads_in h.now) (joint behind.now other.now) more.now (heads_in g.now) asked.now (reached_set (joint library.now text.now) tape.now (heads_in h.now) k) (reached_set (joint behind.now other.now) more.now (heads_in g.now) new_k)) (changed_at (joint library.now text.now) tape.now (heads_in h.now) (joint behind.now other.now) more.now (heads_in g.now) (reached_set (joint library.now text.now) tape.now (heads_in h.now) k) (reached_set (joint behind.now other.now) more.now (heads_in g.now) new_k))) }
{
    let set = reached(library, text, tape, h, k);
    let new_set = reached(behind, other, more, g, new_k);
    decide_sets(
        asked, library, text, tape, h, behind, other, more, g, set, new_set,
    )
}

// The decision where both are read, each onto its tape.
fn decide_read(
    asked: &[u8],
    library: &[u8],
    text: &[u8],
    tape: &[u32],
    behind: &[u8],
    other: &[u8],
    more: &[u32],
) -> Decision
    requires spoken { Spoken (read_texts (two_texts library.now text.now)) (joint library.now text.now) tape.now }
    requires spoken_2 { Spoken (read_texts (two_texts behind.now other.now)) (joint behind.now other.now) more.now }
    ensures { Tells result (Meaning.decide asked.now (two_texts library.now text.now) (two_texts behind.now other.now)) }
{
    let mut h = [0; HEADS];
    let mut g = [0; HEADS];
    find_heads(tape, tape.len() as u32, &mut h);
    find_heads(more, more.len() as u32, &mut g);
    let k = find_asked(library, text, tape, &h, asked);
    let new_k = find_asked(behind, other, more, &g, asked);
    let count = module_count(&h);
    let new_count = module_count(&g);
    if count <= k {
        return absent(asked, reasons::ABSENT_BEFORE);
    }
    if new_count <= new_k {
        return absent(asked, reasons::ABSENT_NOW);
    }
    decide_reached(
        asked, library, text, tape, &h, behind, other, more, &g, k, new_k,
    )
}

// The decision where the old specification lies on the first t words of the memory, and the new one is read behind it.
fn decide_behind(
    asked: &[u8],
    library: &[u8],
    text: &[u8],
    behind: &[u8],
    other: &[u8],
    work: &mut [u32],
    t: usize,
) -> Decision
    requires memory_size_in_bounds { memory_size ≤ length work.old }
    requires t_le_tape_end { t ≤ tape_end }
    requires spoken { Spoken (read_texts (two_texts library.now text.now)) (joint library.now text.now) (part work.old 0 t) }
    ensures { Tells result (Meaning.decide asked.now (two_texts library.now text.now) (two_texts behind.now other.now)) }
{
    let end = tape_end() as usize;
    match read_both(behind, other, &mut work[end..end + end]) {
        Err(e) => nameless(2, 0, true, e.in_library, e.number, e.place),
        Ok(n) => decide_read(
            asked,
            library,
            text,
            &work[0..t],
            behind,
            other,
            &work[end..end + n],
        ),
    }
}

// Are the texts of the new specification those of the old one?
fn same_texts(library: &[u8], text: &[u8], behind: &[u8], other: &[u8]) -> bool
    ensures { result ≡ (same library.now behind.now && same text.now other.now) }
{
    if same_bytes(library, behind) {
        return same_bytes(text, other);
    }
    false
}

// The decision from the old specification, which lies on the first t words of the memory. A new one of the same texts has the same tape and is not read:
// so `decide_read` has two callers, and what it takes on the stack is not there while a text is read.
fn decide_from(
    asked: &[u8],
    library: &[u8],
    text: &[u8],
    behind: &[u8],
    other: &[u8],
    work: &mut [u32],
    t: usize,
) -> Decision
    requires memory_size_in_bounds { memory_size ≤ length work.old }
    requires t_le_tape_end { t ≤ tape_end }
    requires spoken { Spoken (read_texts (two_texts library.now text.now)) (joint library.now text.now) (part work.old 0 t) }
    ensures { Tells result (Meaning.decide asked.now (two_texts library.now text.now) (two_texts behind.now other.now)) }
{
    if same_texts(library, text, behind, other) {
        return decide_read(
            asked,
            library,
            text,
            &work[0..t],
            behind,
            other,
            &work[0..t],
        );
    }
    decide_behind(asked, library, text, behind, other, work, t)
}

// The decision where there is enough working memory.
fn decide_texts(
    asked: &[u8],
    library: &[u8],
    text: &[u8],
    behind: &[u8],
    other: &[u8],
    work: &mut [u32],
) -> Decision
    requires { memory_size ≤ length work.old }
    ensures { Tells result (Meaning.decide asked.now (two_texts library.now text.now) (two_texts behind.now other.now)) }
{
    let end = tape_end() as usize;
    match read_both(library, text, &mut work[0..end]) {
        Err(e) => nameless(2, 0, false, e.in_library, e.number, e.place),
        Ok(t) => decide_from(asked, library, text, behind, other, work, t),
    }
}

// Whether the stored visible part of the asked module is kept, from the old specification to the new one; an empty library is none.
pub fn decide(
    asked: &[u8],
    old_library: &[u8],
    old_text: &[u8],
    new_library: &[u8],
    new_text: &[u8],
    work: &mut [u32],
) -> Decision
    ensures { Decided result work.new (deciding work.old asked.now (two_texts old_library.now old_text.now) (two_texts new_library.now new_text.now)) }
{
    let size = memory_size();
    if work.len() < size {
        memory::zero_all(work);
        return nameless(numbers::LENT_SHORT, 0, false, false, 0, 0);
    }
    let r = decide_texts(asked, old_library, old_text, new_library, new_text, work);
    memory::zero_all(work);
    r
}
