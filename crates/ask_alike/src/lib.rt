// Entries of two tapes compared, each tape that of a text and the library behind it: two entries are the same if their roles are, and their names,
// wherever these stand. Compared are so many entries, those up to a place, and those of one section of a module.
#![tactic(auto)]

pub mod sections;

ghost use Rattle.std.specs.Prelude.{◌≡◌, ◌-◌};
ghost use Rattle.meaning.specs.Lists.{agree};
ghost use Rattle.text_names.specs.Joint.{joint};
ghost use Rattle.ask_alike.specs.Alike.{same_entry, entry_at, entries_from, between, declaring, section_role, run_size};

use form_rows::entries::{role_at, word_at};
use tape::roles;
use text_spelling::same_wherever;

// Is the entry at i of one tape that at j of the other?
fn same_entry(
    library: &[u8],
    text: &[u8],
    tape: &[u32],
    i: usize,
    behind: &[u8],
    other: &[u8],
    new_tape: &[u32],
    j: usize,
) -> bool
    ensures { result ≡ same_entry (entry_at (joint library.now text.now) tape.now i) (entry_at (joint behind.now other.now) new_tape.now j) }
{
    let v = word_at(tape, i);
    let w = word_at(new_tape, j);
    if v % 32 == w % 32 {
        return same_wherever(library, text, v / 32, behind, other, w / 32);
    }
    false
}

// Are the n entries from i on those from j on?
pub fn same_entries(
    library: &[u8],
    text: &[u8],
    tape: &[u32],
    i: u32,
    behind: &[u8],
    other: &[u8],
    new_tape: &[u32],
    j: u32,
    n: u32,
) -> bool
    ensures { result ≡ agree same_entry (entries_from (joint library.now text.now) tape.now i n) (entries_from (joint behind.now other.now) new_tape.now j n) }
{
    let mut p = i as usize;
    let mut q = j as usize;
    for _ in 0..n {
        if !same_entry(library, text, tape, p, behind, other, new_tape, q) {
            return false;
        }
        p += 1;
        q += 1;
    }
    true
}

// Are the n entries from i on the m from j on?
fn same_runs(
    library: &[u8],
    text: &[u8],
    tape: &[u32],
    i: u32,
    n: u32,
    behind: &[u8],
    other: &[u8],
    new_tape: &[u32],
    j: u32,
    m: u32,
) -> bool
    ensures { result ≡ agree same_entry (entries_from (joint library.now text.now) tape.now i n) (entries_from (joint behind.now other.now) new_tape.now j m) }
{
    if n == m {
        return same_entries(library, text, tape, i, behind, other, new_tape, j, n);
    }
    false
}

// ---- up to a place

// Are the entries from i up to `end` those from j up to `new_end`?
pub fn same_part(
    library: &[u8],
    text: &[u8],
    tape: &[u32],
    i: u32,
    end: u32,
    behind: &[u8],
    other: &[u8],
    new_tape: &[u32],
    j: u32,
    new_end: u32,
) -> bool
    ensures { result ≡ agree same_entry (entries_from (joint library.now text.now) tape.now i (end - i)) (entries_from (joint behind.now other.now) new_tape.now j (new_end - j)) }
{
    let n = end.saturating_sub(i);
    let m = new_end.saturating_sub(j);
    same_runs(library, text, tape, i, n, behind, other, new_tape, j, m)
}

// ---- sections: 0 is that of the parameters, 1 of the exports, 2 of the imports

// Is the role one of those from `first` to `last`?
fn is_between(role: u32, first: u32, last: u32) -> bool
    ensures { result ≡ between first last role }
{
    first <= role && role <= last
}

// Or an input's or an output's?
fn is_declaring(role: u32, first: u32, last: u32) -> bool
    ensures { result ≡ declaring first last role }
{
    is_between(role, first, last) || is_between(role, roles::INPUT, roles::OUTPUT)
}

// Has an entry of the section the role?
fn is_of_section(section: u32, role: u32) -> bool
    ensures { result ≡ section_role section role }
{
    if section == sections::PARAMETERS {
        return is_declaring(role, roles::PARAMETER, roles::PARAMETER_FUNCTION);
    }
    if section == sections::EXPORTS {
        return is_declaring(role, roles::EXPORT_SORT, roles::EXPORT_FUNCTION);
    }
    is_between(role, roles::IMPORT, roles::ACTUAL)
}

// How many entries from i on, before `end`, are of the section.
pub fn run_size(tape: &[u32], section: u32, i: u32, end: u32) -> u32
    ensures { result ≡ run_size section tape.now i (end - i) }
{
    for j in i..end {
        if !is_of_section(section, role_at(tape, j as usize)) {
            return j - i;
        }
    }
    end.saturating_sub(i)
}

// Are the entries of the section from i on, before `end`, those from j on, before `new_end`?
pub fn same_section(
    library: &[u8],
    text: &[u8],
    tape: &[u32],
    i: u32,
    end: u32,
    behind: &[u8],
    other: &[u8],
    new_tape: &[u32],
    j: u32,
    new_end: u32,
    section: u32,
) -> bool
    ensures { result ≡ agree same_entry (entries_from (joint library.now text.now) tape.now i (run_size section tape.now i (end - i))) (entries_from (joint behind.now other.now) new_tape.now j (run_size section new_tape.now j (new_end - j))) }
{
    let n = run_size(tape, section, i, end);
    let m = run_size(new_tape, section, j, new_end);
    same_runs(library, text, tape, i, n, behind, other, new_tape, j, m)
}
