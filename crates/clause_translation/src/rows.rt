// Rows under the new names of a mode: their sorts, their names, and the rows as a whole.
ghost use Rattle.std.specs.Prelude.{◌≡◌, ◌-◌, ◌≤◌, min, length};
ghost use Rattle.meaning.specs.Normal.{move_sort, move_name};
ghost use Rattle.text_names.specs.Word.{name_of};
ghost use Rattle.text_names.specs.Joint.{joint};
ghost use Rattle.form_rows.specs.Rows.{sort_of, shape_of, item_of};
ghost use Rattle.form.specs.Memory.{part};
ghost use Rattle.clause_translation.specs.Translation.{sort_name, function_name, moved_in};
ghost use Rattle.clause_translation.specs.Moved.{NewSort, MovedSorts, MovedRow, shape_name};

use super::formals::{is_formal_function, is_formal_sort};
use super::{Mode, modes};
use clause_pairs::renaming_word;
use form_rows::{Row, kinds};

// The word of a visible sort's new name.
pub fn new_sort_word(library: &[u8], text: &[u8], work: &[u32], t: usize, m: Mode, w: u32) -> u32
    requires { t ≤ length work.now }
    ensures { NewSort (joint library.now text.now) (part work.now 0 t) work.now m w result }
{
    let kind = m.kind;
    let pairs = m.pairs;
    if kind == modes::AS_IS {
        return w;
    }
    if kind == modes::RENAMING {
        return renaming_word(library, text, &work[0..t], pairs, w);
    }
    if is_formal_sort(library, text, work, t, m, w) {
        return renaming_word(library, text, &work[0..t], pairs, w);
    }
    w
}

// The word of the new name of the function that the row stands for.
pub fn new_function_word(
    library: &[u8],
    text: &[u8],
    work: &[u32],
    t: usize,
    m: Mode,
    row: Row,
) -> u32
    requires { t ≤ length work.now }
    ensures { name_of (joint library.now text.now) result ≡ shape_name (joint library.now text.now) (part work.now 0 t) work.now m (name_of (joint library.now text.now) row.name) (shape_of (joint library.now text.now) (part work.now 0 t) row.kind row.sorts) }
{
    let kind = m.kind;
    let pairs = m.pairs;
    let name = row.name;
    if kind == modes::AS_IS {
        return name;
    }
    if kind == modes::RENAMING {
        return renaming_word(library, text, &work[0..t], pairs, name);
    }
    if is_formal_function(library, text, work, t, m, row) {
        return renaming_word(library, text, &work[0..t], pairs, name);
    }
    name
}

// A sort under its new name; a hidden sort stays.
pub fn moved_sort(library: &[u8], text: &[u8], work: &[u32], t: usize, m: Mode, s: u32) -> u32
    requires { t ≤ length work.now }
    ensures { sort_of (joint library.now text.now) (part work.now 0 t) result ≡ move_sort (sort_name (joint library.now text.now) (part work.now 0 t) work.now m) (function_name (joint library.now text.now) (part work.now 0 t) work.now m) (sort_of (joint library.now text.now) (part work.now 0 t) s) }
{
    if s % 2 == 0 {
        return new_sort_word(library, text, work, t, m, s / 2) * 2;
    }
    s
}

// How many of a row's sorts in front of the last are inputs.
fn input_count(kind: u32) -> usize
    ensures { result ≡ min (kind - 2) 8 }
{
    kind.saturating_sub(kinds::FUNCTION).min(8) as usize
}

// The sorts of a row of the kind under their new names.
fn moved_sorts(
    library: &[u8],
    text: &[u8],
    work: &[u32],
    t: usize,
    m: Mode,
    kind: u32,
    sorts: [u32; 9],
) -> [u32; 9]
    requires { t ≤ length work.now }
    ensures { MovedSorts (joint library.now text.now) (part work.now 0 t) work.now m (kind - 2) sorts result }
{
    let n = input_count(kind);
    let mut moved = sorts;
    moved[8] = moved_sort(library, text, work, t, m, moved[8]);
    for i in 0..n {
        moved[i] = moved_sort(library, text, work, t, m, moved[i]);
    }
    moved
}

// The word of the new name of a visible item.
fn moved_name(library: &[u8], text: &[u8], work: &[u32], t: usize, m: Mode, row: Row) -> u32
    requires { t ≤ length work.now }
    ensures { name_of (joint library.now text.now) result ≡ move_name (sort_name (joint library.now text.now) (part work.now 0 t) work.now m) (function_name (joint library.now text.now) (part work.now 0 t) work.now m) (name_of (joint library.now text.now) row.name) (shape_of (joint library.now text.now) (part work.now 0 t) row.kind row.sorts) }
{
    let kind = row.kind;
    let name = row.name;
    if kind == kinds::SORT {
        return new_sort_word(library, text, work, t, m, name);
    }
    if kind == kinds::VARIABLE {
        return name;
    }
    new_function_word(library, text, work, t, m, row)
}

// The word of the name that the row stands under: the new one of a visible item, and a hidden item's own.
fn standing_name(
    library: &[u8],
    text: &[u8],
    work: &[u32],
    t: usize,
    m: Mode,
    visible: bool,
    row: Row,
) -> u32
    requires { t ≤ length work.now }
    ensures { name_of (joint library.now text.now) result ≡ (moved_in (joint library.now text.now) (part work.now 0 t) work.now m visible (item_of (joint library.now text.now) (part work.now 0 t) row)).name }
{
    if visible {
        return moved_name(library, text, work, t, m, row);
    }
    row.name
}

// A row of a table of visible items, or of hidden ones.
pub fn moved_row(
    library: &[u8],
    text: &[u8],
    work: &[u32],
    t: usize,
    m: Mode,
    visible: bool,
    row: Row,
) -> Row
    requires { t ≤ length work.now }
    ensures { MovedRow (joint library.now text.now) (part work.now 0 t) work.now m visible row result }
{
    let mode = m.kind;
    if mode == modes::AS_IS {
        return row;
    }
    let standing = row.standing;
    let kind = row.kind;
    let origin = row.origin;
    let old = row.sorts;
    let name = standing_name(library, text, work, t, m, visible, row);
    let sorts = moved_sorts(library, text, work, t, m, kind, old);
    Row {
        standing,
        name,
        kind,
        origin,
        sorts,
    }
}
