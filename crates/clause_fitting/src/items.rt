// Formal items of one name: whether the actual module has under the new name what each of them needs, by its kind or by its type.
ghost use Rattle.std.specs.Prelude.{◌≡◌, ◌≤◌, length};
ghost use Rattle.meaning.specs.Lists.{before};
ghost use Rattle.text_names.specs.Word.{name_of};
ghost use Rattle.text_names.specs.Joint.{joint};
ghost use Rattle.form_rows.specs.Rows.{shape_of, item_of};
ghost use Rattle.form.specs.Memory.{part};
ghost use Rattle.form.specs.Forms.{items_at};
ghost use Rattle.clause_fitting.specs.Fits.{kind_there, function_there, type_fits, item_fits, misfit, all_fit};

use super::formals::is_formal_called;
use super::sorts::sorts_right;
use clause_checks::searches::{find_like, has_function, has_sort};
use clause_translation::Mode;
use clause_translation::rows::moved_row;
use form::Form;
use form_rows::rows::read_row;
use form_rows::{Row, kinds};

// Has the actual module under the new name something of the kind of a formal item?
fn kind_right(
    library: &[u8],
    text: &[u8],
    work: &[u32],
    t: usize,
    actual: Form,
    new: u32,
    kind: u32,
) -> bool
    requires { t ≤ length work.now }
    ensures { result ≡ kind_there (joint library.now text.now) (part work.now 0 t) work.now actual (name_of (joint library.now text.now) new) kind }
{
    let b = actual.visible;
    let n = actual.visible_count;
    if kind == kinds::SORT {
        return has_sort(library, text, work, t, b, n, new);
    }
    if kind == kinds::VARIABLE {
        return true;
    }
    has_function(library, text, work, t, b, n, new)
}

// Has the actual module a function called `new` of the row's type after the formal sorts are replaced?
fn has_moved(
    library: &[u8],
    text: &[u8],
    work: &[u32],
    t: usize,
    m: Mode,
    actual: Form,
    new: u32,
    row: Row,
) -> bool
    requires { t ≤ length work.now }
    ensures { result ≡ function_there (joint library.now text.now) (part work.now 0 t) work.now m actual (name_of (joint library.now text.now) new) (shape_of (joint library.now text.now) (part work.now 0 t) row.kind row.sorts) }
{
    let b = actual.visible;
    let n = actual.visible_count;
    let moved = moved_row(library, text, work, t, m, true, row);
    find_like(library, text, work, t, b, n, new, moved) < n
}

// Has it under the new name a function of the formal row's type, if that is a function?
fn type_right(
    library: &[u8],
    text: &[u8],
    work: &[u32],
    t: usize,
    m: Mode,
    actual: Form,
    new: u32,
    row: Row,
) -> bool
    requires t_in_bounds { t ≤ length work.now }
    requires kind_value { m.kind ≡ 2 }
    ensures { result ≡ type_fits (joint library.now text.now) (part work.now 0 t) work.now m actual (name_of (joint library.now text.now) new) (shape_of (joint library.now text.now) (part work.now 0 t) row.kind row.sorts) }
{
    let kind = row.kind;
    let sorts = row.sorts;
    if kind < kinds::FUNCTION {
        return true;
    }
    if sorts_right(library, text, work, t, m, actual, kind, sorts) {
        return has_moved(library, text, work, t, m, actual, new, row);
    }
    false
}

// Has it what the formal row needs, by its type or by its kind?
fn item_right(
    library: &[u8],
    text: &[u8],
    work: &[u32],
    t: usize,
    m: Mode,
    actual: Form,
    by_type: bool,
    new: u32,
    row: Row,
) -> bool
    requires t_in_bounds { t ≤ length work.now }
    requires kind_value { m.kind ≡ 2 }
    ensures { result ≡ item_fits (joint library.now text.now) (part work.now 0 t) work.now m actual by_type (name_of (joint library.now text.now) new) (shape_of (joint library.now text.now) (part work.now 0 t) row.kind row.sorts) }
{
    let kind = row.kind;
    if by_type {
        return type_right(library, text, work, t, m, actual, new, row);
    }
    kind_right(library, text, work, t, actual, new, kind)
}

// Is the row a formal item called `old` whose need the actual module has not under the new name?
fn is_misfit(
    library: &[u8],
    text: &[u8],
    work: &[u32],
    t: usize,
    m: Mode,
    actual: Form,
    by_type: bool,
    old: u32,
    new: u32,
    row: Row,
) -> bool
    requires t_in_bounds { t ≤ length work.now }
    requires kind_value { m.kind ≡ 2 }
    ensures { result ≡ misfit (joint library.now text.now) (part work.now 0 t) work.now m actual by_type (name_of (joint library.now text.now) old) (name_of (joint library.now text.now) new) (item_of (joint library.now text.now) (part work.now 0 t) row) }
{
    let p = m.parameter;
    if is_formal_called(library, text, &work[0..t], p, old, row) {
        if item_right(library, text, work, t, m, actual, by_type, new, row) {
            return false;
        }
        return true;
    }
    false
}

// The first such row; the number of rows if there is none.
fn find_misfit(
    library: &[u8],
    text: &[u8],
    work: &[u32],
    t: usize,
    m: Mode,
    actual: Form,
    by_type: bool,
    old: u32,
    new: u32,
) -> u32
    requires t_in_bounds { t ≤ length work.now }
    requires kind_value { m.kind ≡ 2 }
    ensures { result ≡ before (misfit (joint library.now text.now) (part work.now 0 t) work.now m actual by_type (name_of (joint library.now text.now) old) (name_of (joint library.now text.now) new)) (items_at (joint library.now text.now) (part work.now 0 t) work.now m.visible m.count) }
{
    let b = m.visible;
    let n = m.count;
    for i in 0..n {
        let row = read_row(work, b, i);
        if is_misfit(library, text, work, t, m, actual, by_type, old, new, row) {
            return i;
        }
    }
    n
}

// Has it what all formal items called `old` need?
pub fn all_right(
    library: &[u8],
    text: &[u8],
    work: &[u32],
    t: usize,
    m: Mode,
    actual: Form,
    by_type: bool,
    old: u32,
    new: u32,
) -> bool
    requires t_in_bounds { t ≤ length work.now }
    requires kind_value { m.kind ≡ 2 }
    ensures { result ≡ all_fit (joint library.now text.now) (part work.now 0 t) work.now m actual by_type (name_of (joint library.now text.now) old) (name_of (joint library.now text.now) new) }
{
    let n = m.count;
    n <= find_misfit(library, text, work, t, m, actual, by_type, old, new)
}
