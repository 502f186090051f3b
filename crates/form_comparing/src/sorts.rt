// Which sorts are one, and which shapes and items.
ghost use Rattle.std.specs.Prelude.{◌≡◌, map, ◌-◌, ◌≤◌, min, take};
ghost use Rattle.meaning.specs.Lists.{agree};
ghost use Rattle.meaning.specs.Origins.{same_origin, same_sort, same_type, same_shape, one_item};
ghost use Rattle.text_names.specs.Joint.{joint};
ghost use Rattle.form_rows.specs.Rows.{hidden_origin, sort_of, type_of, shape_of, item_of};
ghost use Rattle.form_rows.specs.Kinds.{one_but_name};

use super::declarations::same_origin;
use form_rows::entries::{home_at, same_name_at, same_word};
use form_rows::sections::same_section;
use form_rows::{Row, kinds};

// Are the hidden sorts declared at d and e one?
fn same_hidden(library: &[u8], text: &[u8], tape: &[u32], d: u32, e: u32) -> bool
    ensures { result ≡ same_origin (hidden_origin (joint library.now text.now) tape.now d) (hidden_origin (joint library.now text.now) tape.now e) }
{
    same_name_at(library, text, tape, d as usize, e as usize)
        && same_word(library, text, home_at(tape, d), home_at(tape, e))
}

// Are a and b one sort?
pub fn same_sort(library: &[u8], text: &[u8], tape: &[u32], a: u32, b: u32) -> bool
    ensures { result ≡ same_sort (sort_of (joint library.now text.now) tape.now a) (sort_of (joint library.now text.now) tape.now b) }
{
    if a == b {
        return true;
    }
    if a % 2 != b % 2 {
        return false;
    }
    if a % 2 == 0 {
        return same_word(library, text, a / 2, b / 2);
    }
    same_hidden(library, text, tape, a / 2, b / 2)
}

// Are the first n sorts of a those of b, in turn?
pub fn same_sorts(
    library: &[u8],
    text: &[u8],
    tape: &[u32],
    a: [u32; 9],
    b: [u32; 9],
    n: usize,
) -> bool
    ensures { result ≡ agree same_sort (map (sort_of (joint library.now text.now) tape.now) (take n a)) (map (sort_of (joint library.now text.now) tape.now) (take n b)) }
{
    for i in 0..n.min(9) {
        if !same_sort(library, text, tape, a[i], b[i]) {
            return false;
        }
    }
    true
}

// How many of the nine sorts of a row are a function's inputs.
pub fn inputs_of(kind: u32) -> usize
    ensures { result ≡ min (kind - 2) 9 }
{
    kind.saturating_sub(kinds::FUNCTION).min(9) as usize
}

// Are the first n sorts of a those of b, in turn, and then the last ones?
fn same_signature(
    library: &[u8],
    text: &[u8],
    tape: &[u32],
    a: [u32; 9],
    b: [u32; 9],
    n: usize,
) -> bool
    requires { n ≤ 9 }
    ensures { result ≡ same_type (type_of (joint library.now text.now) tape.now n a) (type_of (joint library.now text.now) tape.now n b) }
{
    for i in 0..n {
        if !same_sort(library, text, tape, a[i], b[i]) {
            return false;
        }
    }
    same_sort(library, text, tape, a[8], b[8])
}

fn same_shapes(
    library: &[u8],
    text: &[u8],
    tape: &[u32],
    k: u32,
    a: [u32; 9],
    l: u32,
    b: [u32; 9],
) -> bool
    ensures { result ≡ same_shape (shape_of (joint library.now text.now) tape.now k a) (shape_of (joint library.now text.now) tape.now l b) }
{
    if k == kinds::SORT {
        return l == kinds::SORT;
    }
    if l == kinds::SORT {
        return false;
    }
    if (k == kinds::VARIABLE) != (l == kinds::VARIABLE) {
        return false;
    }
    // A variable is compared as a function without inputs.
    let n = inputs_of(k);
    let m = inputs_of(l);
    if n != m {
        return false;
    }
    same_signature(library, text, tape, a, b, n)
}

// Have a and b one shape?
pub fn same_shape(library: &[u8], text: &[u8], tape: &[u32], a: Row, b: Row) -> bool
    ensures { result ≡ same_shape (shape_of (joint library.now text.now) tape.now a.kind a.sorts) (shape_of (joint library.now text.now) tape.now b.kind b.sorts) }
{
    same_shapes(library, text, tape, a.kind, a.sorts, b.kind, b.sorts)
}

// Are a and b one item but for the name?
fn one_but_name(library: &[u8], text: &[u8], tape: &[u32], a: Row, b: Row) -> bool
    ensures { result ≡ one_but_name (joint library.now text.now) tape.now a b }
{
    if !same_shape(library, text, tape, a, b) {
        return false;
    }
    same_origin(library, text, tape, a.origin, b.origin)
        && same_section(library, text, a.standing, b.standing)
}

// Are a and b one item?
pub fn one_item(library: &[u8], text: &[u8], tape: &[u32], a: Row, b: Row) -> bool
    ensures { result ≡ one_item (item_of (joint library.now text.now) tape.now a) (item_of (joint library.now text.now) tape.now b) }
{
    same_word(library, text, a.name, b.name) && one_but_name(library, text, tape, a, b)
}
