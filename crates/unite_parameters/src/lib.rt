// When a parameter of one normal form is one of another's (document 02, request Seven): of one name, declared in one module, and with the
// same sorts and functions now, from the same places, over the same sorts.
#![tactic(auto)]

ghost use Rattle.std.specs.Prelude.{◌≡◌, ◌-◌, ◌^◌, ◌≤◌, ◌∷◌, length, get_or, take};
ghost use Rattle.meaning.specs.Normal.{origin_of, origins_agree, sort_agrees, shape_agrees, same_formals, is_parameter_of};
ghost use Rattle.text_names.specs.Word.{name_of};
ghost use Rattle.text_names.specs.Joint.{joint};
ghost use Rattle.form_rows.specs.Rows.{sort_of, shape_of, item_of};
ghost use Rattle.form.specs.Memory.{part};
ghost use Rattle.form.specs.Forms.{slot_at, visible_at};
ghost use Rattle.clause_checks.specs.Walks.{inputs_pass};
ghost use Rattle.unite_parameters.specs.Formals.{other, formals_among};

use clause_checks::searches::find_sort;
use clause_checks::sorts::same_origin_at;
use clause_translation::formals::in_parameter;
use form::Form;
use form_rows::entries::word_at;
use form_rows::rows::read_row;
use form_rows::{Row, kinds};
use unite_finding::find_item;
use unite_slots::has_slot;

// Have f and g the sort called a from one place, where both have it?
fn origins_agree(
    library: &[u8],
    text: &[u8],
    work: &[u32],
    t: usize,
    f: Form,
    g: Form,
    a: u32,
) -> bool
    requires { t ≤ length work.now }
    ensures { result ≡ origins_agree (origin_of (visible_at (joint library.now text.now) (part work.now 0 t) work.now f) (name_of (joint library.now text.now) a)) (origin_of (visible_at (joint library.now text.now) (part work.now 0 t) work.now g) (name_of (joint library.now text.now) a)) }
{
    let b = f.visible;
    let n = f.visible_count;
    let c = g.visible;
    let m = g.visible_count;
    let i = find_sort(library, text, work, t, b, n, a);
    let j = find_sort(library, text, work, t, c, m, a);
    if i < n {
        if j < m {
            return same_origin_at(library, text, work, t, b, i, c, j);
        }
        return true;
    }
    true
}

// Is the sort the same in f and g? A hidden one is what it is.
fn sort_agrees(
    library: &[u8],
    text: &[u8],
    work: &[u32],
    t: usize,
    f: Form,
    g: Form,
    s: u32,
) -> bool
    requires { t ≤ length work.now }
    ensures { result ≡ sort_agrees (visible_at (joint library.now text.now) (part work.now 0 t) work.now f) (visible_at (joint library.now text.now) (part work.now 0 t) work.now g) (sort_of (joint library.now text.now) (part work.now 0 t) s) }
{
    if s % 2 == 0 {
        return origins_agree(library, text, work, t, f, g, s / 2);
    }
    true
}

// Are the output of a function of the kind and then its inputs the same?
fn sorts_agree(
    library: &[u8],
    text: &[u8],
    work: &[u32],
    t: usize,
    f: Form,
    g: Form,
    kind: u32,
    sorts: [u32; 9],
) -> bool
    requires { t ≤ length work.now }
    ensures { result ≡ inputs_pass (joint library.now text.now) (part work.now 0 t) (sort_agrees (visible_at (joint library.now text.now) (part work.now 0 t) work.now f) (visible_at (joint library.now text.now) (part work.now 0 t) work.now g)) (get_or sorts 8 0 ∷ take (kind - 2) sorts) }
{
    let end = kind as usize;
    let mut at = 8;
    let mut next = 0;
    // a while: the output stands in the ninth place and is asked first, in the one call that asks the inputs
    while sort_agrees(library, text, work, t, f, g, sorts[at]) {
        if next == 9 {
            return true;
        }
        if end <= next + 2 {
            return true;
        }
        at = next;
        next += 1;
    }
    false
}

// Are the sorts of the row's type the same? A row that is no function has none.
fn shape_agrees(
    library: &[u8],
    text: &[u8],
    work: &[u32],
    t: usize,
    f: Form,
    g: Form,
    row: Row,
) -> bool
    requires { t ≤ length work.now }
    ensures { result ≡ shape_agrees (visible_at (joint library.now text.now) (part work.now 0 t) work.now f) (visible_at (joint library.now text.now) (part work.now 0 t) work.now g) (shape_of (joint library.now text.now) (part work.now 0 t) row.kind row.sorts) }
{
    let kind = row.kind;
    let sorts = row.sorts;
    if kind < kinds::FUNCTION {
        return true;
    }
    sorts_agree(library, text, work, t, f, g, kind, sorts)
}

// Stands the row of f in the parameter p, and is it one with no row of g, or, where `typed` says so, of a type that is not the same in both?
fn is_other(
    library: &[u8],
    text: &[u8],
    work: &[u32],
    t: usize,
    p: u32,
    f: Form,
    g: Form,
    row: Row,
    typed: bool,
) -> bool
    requires { t ≤ length work.now }
    ensures { result ≡ other typed (name_of (joint library.now text.now) p) (visible_at (joint library.now text.now) (part work.now 0 t) work.now f) (visible_at (joint library.now text.now) (part work.now 0 t) work.now g) (item_of (joint library.now text.now) (part work.now 0 t) row) }
{
    let standing = row.standing;
    if in_parameter(library, text, p, standing) {
        let base = g.visible;
        let count = g.visible_count;
        let at = find_item(library, text, work, t, base, count, row);
        if at < count {
            if typed {
                if shape_agrees(library, text, work, t, f, g, row) {
                    return false;
                }
                return true;
            }
            return false;
        }
        return true;
    }
    false
}

// Is each row of f that stands in the parameter p one with a row of g and, where `typed` says so, of a type that is the same in both?
fn all_among(
    library: &[u8],
    text: &[u8],
    work: &[u32],
    t: usize,
    p: u32,
    f: Form,
    g: Form,
    typed: bool,
) -> bool
    requires { t ≤ length work.now }
    ensures { result ≡ formals_among typed (name_of (joint library.now text.now) p) (visible_at (joint library.now text.now) (part work.now 0 t) work.now f) (visible_at (joint library.now text.now) (part work.now 0 t) work.now g) }
{
    let base = f.visible;
    let count = f.visible_count;
    for i in 0..count {
        let row = read_row(work, base, i);
        if is_other(library, text, work, t, p, f, g, row, typed) {
            return false;
        }
    }
    true
}

// Stand the same sorts and functions in the parameter p of f and of g?
fn same_formals(
    library: &[u8],
    text: &[u8],
    work: &[u32],
    t: usize,
    p: u32,
    f: Form,
    g: Form,
) -> bool
    requires { t ≤ length work.now }
    ensures { result ≡ same_formals (name_of (joint library.now text.now) p) (visible_at (joint library.now text.now) (part work.now 0 t) work.now f) (visible_at (joint library.now text.now) (part work.now 0 t) work.now g) }
{
    if all_among(library, text, work, t, p, f, g, true) {
        return all_among(library, text, work, t, p, g, f, false);
    }
    false
}

// Is the parameter of g at place q one of f's?
pub fn is_parameter_of(
    library: &[u8],
    text: &[u8],
    work: &[u32],
    t: usize,
    f: Form,
    g: Form,
    q: usize,
) -> bool
    requires t_in_bounds { t ≤ length work.now }
    requires q_bound { q ≤ 2 ^ 40 }
    ensures { result ≡ is_parameter_of (visible_at (joint library.now text.now) (part work.now 0 t) work.now f) (visible_at (joint library.now text.now) (part work.now 0 t) work.now g) (slot_at (joint library.now text.now) work.now q) }
{
    if has_slot(library, text, work, f, q) {
        let p = word_at(work, q);
        return same_formals(library, text, work, t, p, f, g);
    }
    false
}
