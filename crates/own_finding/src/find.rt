// The first known item that a name can be: a variable, or a function that takes given sorts.
ghost use Rattle.std.specs.Prelude.{◌≡◌, map, ◌+◌, ◌*◌, ◌≤◌, length, get_or, take};
ghost use Rattle.meaning.specs.Lists.{before, agree};
ghost use Rattle.meaning.specs.Origins.{same_sort};
ghost use Rattle.text_names.specs.Word.{name_of};
ghost use Rattle.text_names.specs.Joint.{joint};
ghost use Rattle.form_rows.specs.Rows.{sort_of, item_of, row_at, row_size};
ghost use Rattle.form.specs.Memory.{part};
ghost use Rattle.form.specs.Forms.{items_at};
ghost use Rattle.own_finding.specs.Known.{variable_called, function_called};

use form_comparing::sorts::{inputs_of, same_sort};
use form_rows::entries::{same_word, word_at};
use form_rows::{ROW_STEP, kinds};

// The word of the name of row i of those from b on.
fn row_name(work: &[u32], b: u32, i: u32) -> u32
    ensures { result ≡ get_or work.now (b + i * row_size + 1) 0 }
{
    word_at(work, b as usize + i as usize * ROW_STEP + 1)
}

// Is row i of those from b on a variable called w? Its name decides most: the kind is read only where it is w.
fn is_such_variable(
    library: &[u8],
    text: &[u8],
    work: &[u32],
    t: usize,
    b: u32,
    i: u32,
    w: u32,
) -> bool
    requires { t ≤ length work.now }
    ensures { result ≡ variable_called (name_of (joint library.now text.now) w) (item_of (joint library.now text.now) (part work.now 0 t) (row_at work.now (b + i * row_size))) }
{
    if same_word(library, text, w, row_name(work, b, i)) {
        return word_at(work, b as usize + i as usize * ROW_STEP + 2) == kinds::VARIABLE;
    }
    false
}

// Are the first n sorts of row i of those from b on the given ones, in turn? They are compared where they lie.
fn takes(
    library: &[u8],
    text: &[u8],
    work: &[u32],
    t: usize,
    b: u32,
    i: u32,
    sorts: &[u32; 9],
    n: usize,
) -> bool
    requires { (t ≤ length work.now) × (n ≤ 9) × (length sorts.now ≡ 9) }
    ensures { result ≡ agree same_sort (map (sort_of (joint library.now text.now) (part work.now 0 t)) (take n sorts.now)) (map (sort_of (joint library.now text.now) (part work.now 0 t)) (take n (row_at work.now (b + i * row_size)).sorts)) }
{
    let place = b as usize + i as usize * ROW_STEP + 6;
    for j in 0..n {
        let own = word_at(work, place + j);
        if !same_sort(library, text, &work[0..t], sorts[j], own) {
            return false;
        }
    }
    true
}

// Is row i of those from b on a function called w that takes the first n sorts?
fn is_such_function(
    library: &[u8],
    text: &[u8],
    work: &[u32],
    t: usize,
    b: u32,
    i: u32,
    w: u32,
    sorts: &[u32; 9],
    n: usize,
) -> bool
    requires { (t ≤ length work.now) × (n ≤ 9) × (length sorts.now ≡ 9) }
    ensures { result ≡ function_called (name_of (joint library.now text.now) w) (map (sort_of (joint library.now text.now) (part work.now 0 t)) (take n sorts.now)) (item_of (joint library.now text.now) (part work.now 0 t) (row_at work.now (b + i * row_size))) }
{
    if same_word(library, text, w, row_name(work, b, i)) {
        let kind = word_at(work, b as usize + i as usize * ROW_STEP + 2);
        if kind < kinds::FUNCTION {
            return false;
        }
        if inputs_of(kind) != n {
            return false;
        }
        return takes(library, text, work, t, b, i, sorts, n);
    }
    false
}

// The first of the n rows from b on that is a variable called w; n if none is.
pub fn find_variable(
    library: &[u8],
    text: &[u8],
    work: &[u32],
    t: usize,
    b: u32,
    n: u32,
    w: u32,
) -> u32
    requires { t ≤ length work.now }
    ensures { result ≡ before (variable_called (name_of (joint library.now text.now) w)) (items_at (joint library.now text.now) (part work.now 0 t) work.now b n) }
{
    for i in 0..n {
        if is_such_variable(library, text, work, t, b, i, w) {
            return i;
        }
    }
    n
}

// The first of the n rows from b on that is a function called w and takes the first `count` sorts; n if none is.
pub fn find_function(
    library: &[u8],
    text: &[u8],
    work: &[u32],
    t: usize,
    b: u32,
    n: u32,
    w: u32,
    sorts: &[u32; 9],
    count: usize,
) -> u32
    requires { (t ≤ length work.now) × (count ≤ 9) × (length sorts.now ≡ 9) }
    ensures { result ≡ before (function_called (name_of (joint library.now text.now) w) (map (sort_of (joint library.now text.now) (part work.now 0 t)) (take count sorts.now))) (items_at (joint library.now text.now) (part work.now 0 t) work.now b n) }
{
    for i in 0..n {
        if is_such_function(library, text, work, t, b, i, w, sorts, count) {
            return i;
        }
    }
    n
}
