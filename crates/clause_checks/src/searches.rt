// Rows of a table sought by name, by name and kind, and by name and shape.
ghost use Rattle.std.specs.Prelude.{◌≡◌, ◌≤◌, length};
ghost use Rattle.meaning.specs.Lists.{any, before};
ghost use Rattle.meaning.specs.Names.{member};
ghost use Rattle.meaning.specs.Normal.{names_in, sorts_among, is_called};
ghost use Rattle.text_names.specs.Word.{name_of};
ghost use Rattle.text_names.specs.Joint.{joint};
ghost use Rattle.form_rows.specs.Rows.{item_of, shape_of};
ghost use Rattle.form.specs.Memory.{part};
ghost use Rattle.form.specs.Forms.{items_at};
ghost use Rattle.clause_checks.specs.Searches.{sort_called, function_called, like};

use form_comparing::sorts::same_shape;
use form_rows::entries::same_word;
use form_rows::rows::read_row;
use form_rows::{Row, kinds};

// Is the row called a?
fn is_row_called(library: &[u8], text: &[u8], tape: &[u32], a: u32, row: Row) -> bool
    ensures { result ≡ is_called (name_of (joint library.now text.now) a) (item_of (joint library.now text.now) tape.now row) }
{
    let name = row.name;
    same_word(library, text, a, name)
}

// The first of the n rows at b that is called a; n if there is none.
fn find_called(library: &[u8], text: &[u8], work: &[u32], t: usize, b: u32, n: u32, a: u32) -> u32
    requires { t ≤ length work.now }
    ensures { result ≡ before (is_called (name_of (joint library.now text.now) a)) (items_at (joint library.now text.now) (part work.now 0 t) work.now b n) }
{
    for i in 0..n {
        let row = read_row(work, b, i);
        if is_row_called(library, text, &work[0..t], a, row) {
            return i;
        }
    }
    n
}

// Is one of the n rows at b called a?
pub fn is_visible(
    library: &[u8],
    text: &[u8],
    work: &[u32],
    t: usize,
    b: u32,
    n: u32,
    a: u32,
) -> bool
    requires { t ≤ length work.now }
    ensures { result ≡ member (name_of (joint library.now text.now) a) (names_in (items_at (joint library.now text.now) (part work.now 0 t) work.now b n)) }
{
    find_called(library, text, work, t, b, n, a) < n
}

// Is the row a sort called a?
fn is_sort_called(library: &[u8], text: &[u8], tape: &[u32], a: u32, row: Row) -> bool
    ensures { result ≡ sort_called (name_of (joint library.now text.now) a) (item_of (joint library.now text.now) tape.now row) }
{
    let kind = row.kind;
    if kind == kinds::SORT {
        let name = row.name;
        return same_word(library, text, a, name);
    }
    false
}

// The first of the n rows at b that is a sort called a; n if there is none.
pub fn find_sort(library: &[u8], text: &[u8], work: &[u32], t: usize, b: u32, n: u32, a: u32) -> u32
    requires { t ≤ length work.now }
    ensures { result ≡ before (sort_called (name_of (joint library.now text.now) a)) (items_at (joint library.now text.now) (part work.now 0 t) work.now b n) }
{
    for i in 0..n {
        let row = read_row(work, b, i);
        if is_sort_called(library, text, &work[0..t], a, row) {
            return i;
        }
    }
    n
}

// Is one of the n rows at b a sort called a?
pub fn has_sort(library: &[u8], text: &[u8], work: &[u32], t: usize, b: u32, n: u32, a: u32) -> bool
    requires { t ≤ length work.now }
    ensures { result ≡ member (name_of (joint library.now text.now) a) (names_in (sorts_among (items_at (joint library.now text.now) (part work.now 0 t) work.now b n))) }
{
    find_sort(library, text, work, t, b, n, a) < n
}

// Is the row a function called a?
fn is_function_called(library: &[u8], text: &[u8], tape: &[u32], a: u32, row: Row) -> bool
    ensures { result ≡ function_called (name_of (joint library.now text.now) a) (item_of (joint library.now text.now) tape.now row) }
{
    let name = row.name;
    let kind = row.kind;
    if same_word(library, text, a, name) {
        return kinds::FUNCTION <= kind;
    }
    false
}

// Is one of the n rows at b a function called a?
pub fn has_function(
    library: &[u8],
    text: &[u8],
    work: &[u32],
    t: usize,
    b: u32,
    n: u32,
    a: u32,
) -> bool
    requires { t ≤ length work.now }
    ensures { result ≡ any (function_called (name_of (joint library.now text.now) a)) (items_at (joint library.now text.now) (part work.now 0 t) work.now b n) }
{
    for i in 0..n {
        let row = read_row(work, b, i);
        if is_function_called(library, text, &work[0..t], a, row) {
            return true;
        }
    }
    false
}

// Is `other` called a, and has it the row's shape?
fn is_like(library: &[u8], text: &[u8], tape: &[u32], a: u32, row: Row, other: Row) -> bool
    ensures { result ≡ like (name_of (joint library.now text.now) a) (shape_of (joint library.now text.now) tape.now row.kind row.sorts) (item_of (joint library.now text.now) tape.now other) }
{
    let name = other.name;
    if same_word(library, text, a, name) {
        return same_shape(library, text, tape, row, other);
    }
    false
}

// The first of the n rows at b that is called a and has the row's shape; n if there is none.
pub fn find_like(
    library: &[u8],
    text: &[u8],
    work: &[u32],
    t: usize,
    b: u32,
    n: u32,
    a: u32,
    row: Row,
) -> u32
    requires { t ≤ length work.now }
    ensures { result ≡ before (like (name_of (joint library.now text.now) a) (shape_of (joint library.now text.now) (part work.now 0 t) row.kind row.sorts)) (items_at (joint library.now text.now) (part work.now 0 t) work.now b n) }
{
    for i in 0..n {
        let other = read_row(work, b, i);
        if is_like(library, text, &work[0..t], a, row, other) {
            return i;
        }
    }
    n
}
