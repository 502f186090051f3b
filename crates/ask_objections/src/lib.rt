// What speaks against keeping a stored visible part: of one reached module of the old specification and its counterpart in the new one. Both lie on
// tapes of their own: `behind` and `other` are the new one's library and text, `more` its tape, g its heads, n the counterpart's number.
#![tactic(auto)]

ghost use Rattle.std.specs.Prelude.{◌≡◌, false};
ghost use Rattle.meaning.specs.Lists.{agree, before};
ghost use Rattle.meaning.specs.Names.{same};
ghost use Rattle.text_names.specs.Word.{name_of};
ghost use Rattle.text_names.specs.Joint.{joint};
ghost use Rattle.ask_alike.specs.Alike.{same_entry};
ghost use Rattle.modules.specs.Modules.{declared, heads_in};
ghost use Rattle.ask_objections.specs.Objections.{told, module_entries, otherwise_at, itself_at, body_start, section_start, section_entries, shown_at, standing, used_alike, names_at, objection_at};

use ask_alike::{run_size, same_part, same_section, sections};
use ask_decision::reasons;
use form_rows::entries::{name_at, role_at};
use modules::{Heads, find_number, module_count, name_of_module, names_module, place_at};
use text_spelling::{is_called, same_wherever};

// An objection: the reason's number; the module concerned, a word of the old texts; and the other name, a word of the new texts where `new_name` says
// so, else of the old ones. A name that is not told has the word 0. The number is no enum: C is handed it.
#[derive(Clone, Copy)]
pub struct Why {
    pub reason: u32,
    pub by: u32,
    pub name: u32,
    pub new_name: bool,
}

// A reason that tells the module alone.
fn changed(reason: u32, by: u32) -> Why
    ensures { result ≡ record { reason = reason; by = by; name = 0; new_name = false } }
{
    Why {
        reason,
        by,
        name: 0,
        new_name: false,
    }
}

// Have module k and its counterpart one name? 3.
fn otherwise(
    library: &[u8],
    text: &[u8],
    tape: &[u32],
    h: &Heads,
    behind: &[u8],
    other: &[u8],
    more: &[u32],
    g: &Heads,
    k: u32,
    n: u32,
) -> Option<Why>
    ensures { told (joint library.now text.now) (joint behind.now other.now) result ≡ otherwise_at (joint library.now text.now) tape.now (heads_in h.now) (joint behind.now other.now) more.now (heads_in g.now) k n }
{
    let w = name_of_module(tape, h, k);
    let v = name_of_module(more, g, n);
    if same_wherever(library, text, w, behind, other, v) {
        return None;
    }
    Some(Why {
        reason: reasons::REACHED_OTHERWISE,
        by: w,
        name: v,
        new_name: true,
    })
}

// ---- the whole module

// Is module k its counterpart, entry by entry?
pub fn same_module(
    library: &[u8],
    text: &[u8],
    tape: &[u32],
    h: &Heads,
    behind: &[u8],
    other: &[u8],
    more: &[u32],
    g: &Heads,
    k: u32,
    n: u32,
) -> bool
    ensures { result ≡ agree same_entry (module_entries (joint library.now text.now) tape.now (heads_in h.now) k) (module_entries (joint behind.now other.now) more.now (heads_in g.now) n) }
{
    let i = place_at(h, k as usize);
    let end = place_at(h, k as usize + 1);
    let j = place_at(g, n as usize);
    let last = place_at(g, n as usize + 1);
    same_part(library, text, tape, i, end, behind, other, more, j, last)
}

// Is module k, where it is the asked one, its counterpart? 4.
fn itself(
    asked: &[u8],
    library: &[u8],
    text: &[u8],
    tape: &[u32],
    h: &Heads,
    behind: &[u8],
    other: &[u8],
    more: &[u32],
    g: &Heads,
    k: u32,
    n: u32,
) -> Option<Why>
    ensures { told (joint library.now text.now) (joint behind.now other.now) result ≡ itself_at (joint library.now text.now) tape.now (heads_in h.now) (joint behind.now other.now) more.now (heads_in g.now) asked.now k n }
{
    let w = name_of_module(tape, h, k);
    if is_called(library, text, w, asked) {
        if same_module(library, text, tape, h, behind, other, more, g, k, n) {
            return None;
        }
        return Some(changed(reasons::ASKED_CHANGED, w));
    }
    None
}

// ---- its sections: 0 is that of the parameters, 1 of the exports, 2 of the imports

// The place behind the head of module k, where it has one.
fn body_start(h: &Heads, k: u32) -> u32
    ensures { result ≡ body_start (heads_in h.now) k }
{
    let i = place_at(h, k as usize);
    if i < place_at(h, k as usize + 1) {
        return i + 1;
    }
    i
}

// Where the section of module k begins.
fn section_start(tape: &[u32], h: &Heads, k: u32, section: u32) -> u32
    ensures { result ≡ section_start tape.now (heads_in h.now) k section }
{
    let end = place_at(h, k as usize + 1);
    let mut i = body_start(h, k);
    for s in 0..section {
        let size = run_size(tape, s, i, end);
        i += size;
    }
    i
}

// Is the section of module k that of its counterpart?
fn same_there(
    library: &[u8],
    text: &[u8],
    tape: &[u32],
    h: &Heads,
    behind: &[u8],
    other: &[u8],
    more: &[u32],
    g: &Heads,
    k: u32,
    n: u32,
    section: u32,
) -> bool
    ensures { result ≡ agree same_entry (section_entries (joint library.now text.now) tape.now (heads_in h.now) k section) (section_entries (joint behind.now other.now) more.now (heads_in g.now) n section) }
{
    let i = section_start(tape, h, k, section);
    let j = section_start(more, g, n, section);
    let end = place_at(h, k as usize + 1);
    let last = place_at(g, n as usize + 1);
    same_section(
        library, text, tape, i, end, behind, other, more, j, last, section,
    )
}

// Has module k the parameters, exports and imports of its counterpart? 5, 6, 7.
fn shown(
    library: &[u8],
    text: &[u8],
    tape: &[u32],
    h: &Heads,
    behind: &[u8],
    other: &[u8],
    more: &[u32],
    g: &Heads,
    k: u32,
    n: u32,
) -> Option<Why>
    ensures { told (joint library.now text.now) (joint behind.now other.now) result ≡ shown_at (joint library.now text.now) tape.now (heads_in h.now) (joint behind.now other.now) more.now (heads_in g.now) k n }
{
    let by = name_of_module(tape, h, k);
    if same_there(
        library,
        text,
        tape,
        h,
        behind,
        other,
        more,
        g,
        k,
        n,
        sections::PARAMETERS,
    ) {
        if same_there(
            library,
            text,
            tape,
            h,
            behind,
            other,
            more,
            g,
            k,
            n,
            sections::EXPORTS,
        ) {
            if same_there(
                library,
                text,
                tape,
                h,
                behind,
                other,
                more,
                g,
                k,
                n,
                sections::IMPORTS,
            ) {
                return None;
            }
            return Some(changed(reasons::IMPORTS_CHANGED, by));
        }
        return Some(changed(reasons::EXPORTS_CHANGED, by));
    }
    Some(changed(reasons::PARAMETERS_CHANGED, by))
}

// ---- the names of modules that it uses

// The number in the new specification of the module called w in the old one; the number of modules if there is none.
fn find_across(
    library: &[u8],
    text: &[u8],
    w: u32,
    behind: &[u8],
    other: &[u8],
    more: &[u32],
    g: &Heads,
) -> u32
    ensures { result ≡ before (same (name_of (joint library.now text.now) w)) (declared (joint behind.now other.now) more.now (heads_in g.now)) }
{
    let count = module_count(g);
    for k in 0..count {
        let v = name_of_module(more, g, k);
        if same_wherever(library, text, w, behind, other, v) {
            return k;
        }
    }
    count
}

// How the module with number p stands to module k: 0 where there is none, 1 where it stands too late, 2 where it stands before.
fn standing(h: &Heads, k: u32, p: u32) -> u32
    ensures { result ≡ standing (heads_in h.now).count k p }
{
    let count = module_count(h);
    if count <= p {
        return 0;
    }
    if k <= p {
        return 1;
    }
    2
}

// Does the module called w stand to module k as it does to its counterpart?
fn used_alike(
    library: &[u8],
    text: &[u8],
    tape: &[u32],
    h: &Heads,
    behind: &[u8],
    other: &[u8],
    more: &[u32],
    g: &Heads,
    k: u32,
    n: u32,
    w: u32,
) -> bool
    ensures { result ≡ used_alike (joint library.now text.now) tape.now (heads_in h.now) (joint behind.now other.now) more.now (heads_in g.now) k n (name_of (joint library.now text.now) w) }
{
    let p = find_number(library, text, tape, h, w);
    let q = find_across(library, text, w, behind, other, more, g);
    standing(h, k, p) == standing(g, n, q)
}

// Do all names of modules that module k uses stand so? 8.
fn names(
    library: &[u8],
    text: &[u8],
    tape: &[u32],
    h: &Heads,
    behind: &[u8],
    other: &[u8],
    more: &[u32],
    g: &Heads,
    k: u32,
    n: u32,
) -> Option<Why>
    ensures { told (joint library.now text.now) (joint behind.now other.now) result ≡ names_at (joint library.now text.now) tape.now (heads_in h.now) (joint behind.now other.now) more.now (heads_in g.now) k n }
{
    let by = name_of_module(tape, h, k);
    let from = place_at(h, k as usize);
    let end = place_at(h, k as usize + 1);
    for j in from..end {
        if names_module(role_at(tape, j as usize)) {
            let name = name_at(tape, j as usize);
            if !used_alike(library, text, tape, h, behind, other, more, g, k, n, name) {
                return Some(Why {
                    reason: reasons::NAMED_OTHERWISE,
                    by,
                    name,
                    new_name: false,
                });
            }
        }
    }
    None
}

// ---- which of these is asked

// Pass 0 asks for 3, pass 1 for 4, pass 2 for 5 to 7, and any other for 8.
pub fn objection_in(
    asked: &[u8],
    library: &[u8],
    text: &[u8],
    tape: &[u32],
    h: &Heads,
    behind: &[u8],
    other: &[u8],
    more: &[u32],
    g: &Heads,
    pass: u32,
    k: u32,
    n: u32,
) -> Option<Why>
    ensures { told (joint library.now text.now) (joint behind.now other.now) result ≡ objection_at (joint library.now text.now) tape.now (heads_in h.now) (joint behind.now other.now) more.now (heads_in g.now) asked.now pass k n }
{
    if pass == 0 {
        return otherwise(library, text, tape, h, behind, other, more, g, k, n);
    }
    if pass == 1 {
        return itself(asked, library, text, tape, h, behind, other, more, g, k, n);
    }
    if pass == 2 {
        return shown(library, text, tape, h, behind, other, more, g, k, n);
    }
    names(library, text, tape, h, behind, other, more, g, k, n)
}
