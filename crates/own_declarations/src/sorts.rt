// What sort a module's text means by a name.
ghost use Rattle.std.specs.Prelude.{◌≡◌, ◌+◌, ◌-◌, ◌*◌, ◌≤◌, ◌<◌, length, get_or};
ghost use Rattle.text_names.specs.Word.{name_of};
ghost use Rattle.text_names.specs.Joint.{joint};
ghost use Rattle.form_rows.specs.Rows.{sort_of, row_size};
ghost use Rattle.form_rows.specs.Entries.{name_at};
ghost use Rattle.form.specs.Memory.{part};
ghost use Rattle.own_repeats.specs.Scans.{found, first_of};
ghost use Rattle.own_declarations.specs.Sorts.{is_named, is_row, declares_at, declares_seen, hidden_place, is_seen, is_inside, resolved_in, Ready};

use super::Own;
use form_rows::ROW_STEP;
use form_rows::entries::{name_at, role_at, same_word, word_at};
use tape::roles;

// Has the entry at i the role and the name w?
fn is_named(library: &[u8], text: &[u8], tape: &[u32], role: u32, w: u32, i: u32) -> bool
    ensures { result ≡ is_named (joint library.now text.now) tape.now role (name_of (joint library.now text.now) w) i }
{
    if role_at(tape, i as usize) == role {
        return same_word(library, text, w, name_at(tape, i as usize));
    }
    false
}

// The first entry from a up to e with the role and the name w; e if there is none.
pub fn first_named(
    library: &[u8],
    text: &[u8],
    tape: &[u32],
    role: u32,
    w: u32,
    a: u32,
    e: u32,
) -> u32
    ensures { result ≡ first_of (is_named (joint library.now text.now) tape.now role (name_of (joint library.now text.now) w)) a (e - a) }
{
    for i in a..e {
        if is_named(library, text, tape, role, w, i) {
            return i;
        }
    }
    a.max(e)
}

// Word k of row i of the table that starts at b.
fn row_word(work: &[u32], b: u32, i: u32, k: u32) -> u32
    ensures { result ≡ get_or work.now (b + i * row_size + k) 0 }
{
    word_at(work, b as usize + i as usize * ROW_STEP + k as usize)
}

// Is row i of the kind, and called w?
fn is_row(library: &[u8], text: &[u8], work: &[u32], b: u32, kind: u32, w: u32, i: u32) -> bool
    ensures { result ≡ is_row (joint library.now text.now) work.now b kind (name_of (joint library.now text.now) w) i }
{
    if row_word(work, b, i, 2) == kind {
        return same_word(library, text, w, row_word(work, b, i, 1));
    }
    false
}

// Is one of the n rows from b on of the kind, and called w?
pub fn has_row(library: &[u8], text: &[u8], work: &[u32], b: u32, n: u32, kind: u32, w: u32) -> bool
    ensures { result ≡ found (is_row (joint library.now text.now) work.now b kind (name_of (joint library.now text.now) w)) 0 n }
{
    for i in 0..n {
        if is_row(library, text, work, b, kind, w, i) {
            return true;
        }
    }
    false
}

// Does the entry at i declare a sort called w, in a parameter or in the exports?
fn declares_at(library: &[u8], text: &[u8], tape: &[u32], w: u32, i: u32) -> bool
    ensures { result ≡ declares_at (joint library.now text.now) tape.now (name_of (joint library.now text.now) w) i }
{
    if is_named(library, text, tape, roles::PARAMETER_SORT, w, i) {
        return true;
    }
    is_named(library, text, tape, roles::EXPORT_SORT, w, i)
}

// Does one of the entries from a up to e?
fn declares_one(library: &[u8], text: &[u8], tape: &[u32], w: u32, a: u32, e: u32) -> bool
    ensures { result ≡ found (declares_at (joint library.now text.now) tape.now (name_of (joint library.now text.now) w)) a (e - a) }
{
    for i in a..e {
        if declares_at(library, text, tape, w, i) {
            return true;
        }
    }
    false
}

// Does a parameter or the exports declare a sort called w? One walk over the entries tells of both.
fn declares_seen(library: &[u8], text: &[u8], tape: &[u32], own: Own, w: u32) -> bool
    ensures { result ≡ declares_seen (joint library.now text.now) tape.now own (name_of (joint library.now text.now) w) }
{
    let from = own.from;
    let end = own.end;
    declares_one(library, text, tape, w, from, end)
}

// Where the hidden sort called w is declared; not before the end of the entries if it is not.
fn hidden_place(library: &[u8], text: &[u8], tape: &[u32], own: Own, w: u32) -> u32
    ensures { result ≡ hidden_place (joint library.now text.now) tape.now own (name_of (joint library.now text.now) w) }
{
    let from = own.from;
    let end = own.end;
    first_named(library, text, tape, roles::HIDDEN_SORT, w, from, end)
}

// Is a visible sort called w?
pub fn is_seen(library: &[u8], text: &[u8], work: &[u32], t: usize, own: Own, w: u32) -> bool
    requires { Ready work.now t own }
    ensures { result ≡ is_seen (joint library.now text.now) (part work.now 0 t) work.now own (name_of (joint library.now text.now) w) }
{
    let rows = own.rows;
    let count = own.count;
    if has_row(library, text, work, rows, count, 0, w) {
        return true;
    }
    declares_seen(library, text, &work[0..t], own, w)
}

// Is a visible sort or the module's hidden sort called w? The hidden ones are looked at first here, and last where the sort is resolved: so no
// sort costs a whole walk both times.
pub fn is_inside(library: &[u8], text: &[u8], work: &[u32], t: usize, own: Own, w: u32) -> bool
    requires { Ready work.now t own }
    ensures { result ≡ is_inside (joint library.now text.now) (part work.now 0 t) work.now own (name_of (joint library.now text.now) w) }
{
    let end = own.end;
    if hidden_place(library, text, &work[0..t], own, w) < end {
        return true;
    }
    is_seen(library, text, work, t, own, w)
}

// The sort that the module's text means by w, as a word.
fn sort_word(library: &[u8], text: &[u8], work: &[u32], t: usize, own: Own, w: u32) -> u32
    requires ready { Ready work.now t own }
    requires w_bound { w < 2147483648 }
    ensures { sort_of (joint library.now text.now) (part work.now 0 t) result ≡ resolved_in (joint library.now text.now) (part work.now 0 t) work.now own (name_of (joint library.now text.now) w) }
{
    if is_seen(library, text, work, t, own, w) {
        return w * 2;
    }
    let end = own.end;
    let d = hidden_place(library, text, &work[0..t], own, w);
    if d < end {
        return d * 2 + 1;
    }
    w * 2
}

// The sort that stands at place i of the tape, as a word.
pub fn sort_at(library: &[u8], text: &[u8], work: &[u32], t: usize, own: Own, i: usize) -> u32
    requires { Ready work.now t own }
    ensures { sort_of (joint library.now text.now) (part work.now 0 t) result ≡ resolved_in (joint library.now text.now) (part work.now 0 t) work.now own (name_at (joint library.now text.now) (part work.now 0 t) i) }
{
    let w = word_at(&work[0..t], i) / 32;
    sort_word(library, text, work, t, own, w)
}
