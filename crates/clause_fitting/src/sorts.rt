// The sorts of a formal type: whether a sort is there in the actual module, and whether both modules have it from the same place.
ghost use Rattle.std.specs.Prelude.{◌≡◌, ◌-◌, ◌≤◌, length, take};
ghost use Rattle.meaning.specs.Origins.{visible_sort};
ghost use Rattle.meaning.specs.Normal.{sorts_among, names_in};
ghost use Rattle.meaning.specs.Clauses.{paired, is_among};
ghost use Rattle.text_names.specs.Word.{name_of};
ghost use Rattle.text_names.specs.Joint.{joint};
ghost use Rattle.form_rows.specs.Rows.{sort_of, type_of};
ghost use Rattle.form.specs.Memory.{part};
ghost use Rattle.form.specs.Forms.{items_at};
ghost use Rattle.clause_pairs.specs.Pairs.{pairs_at};
ghost use Rattle.clause_checks.specs.Walks.{inputs_pass};
ghost use Rattle.clause_fitting.specs.Fits.{one_origin, sort_fits, sorts_fit};

use clause_checks::pairs::paired_word;
use clause_checks::searches::{find_sort, has_sort};
use clause_checks::sorts::same_origin_at;
use clause_translation::Mode;
use clause_translation::formals::is_formal_sort;
use form::Form;
use form_rows::kinds;

// Have the n rows at b and the m rows at c the sort called a from one place, or neither of them at all?
fn same_sort_origin(
    library: &[u8],
    text: &[u8],
    work: &[u32],
    t: usize,
    b: u32,
    n: u32,
    c: u32,
    m: u32,
    a: u32,
) -> bool
    requires { t ≤ length work.now }
    ensures { result ≡ one_origin (joint library.now text.now) (part work.now 0 t) work.now b n c m (name_of (joint library.now text.now) a) }
{
    let i = find_sort(library, text, work, t, b, n, a);
    let j = find_sort(library, text, work, t, c, m, a);
    if i < n {
        if j < m {
            return same_origin_at(library, text, work, t, b, i, c, j);
        }
        return false;
    }
    if j < m {
        return false;
    }
    true
}

// Does the first pair of the name a name one of the sorts among the n rows at b?
fn is_paired_sort(
    library: &[u8],
    text: &[u8],
    work: &[u32],
    t: usize,
    pairs: u32,
    b: u32,
    n: u32,
    a: u32,
) -> bool
    requires { t ≤ length work.now }
    ensures { result ≡ is_among (names_in (sorts_among (items_at (joint library.now text.now) (part work.now 0 t) work.now b n))) (paired (pairs_at (joint library.now text.now) (part work.now 0 t) pairs) (name_of (joint library.now text.now) a)) }
{
    let new = paired_word(library, text, &work[0..t], pairs, a);
    match new {
        Some(w) => has_sort(library, text, work, t, b, n, w),
        None => false,
    }
}

// Is the visible sort called a right: a formal one paired with a sort of the actual module, any other the same in both?
fn name_right(
    library: &[u8],
    text: &[u8],
    work: &[u32],
    t: usize,
    m: Mode,
    actual: Form,
    a: u32,
) -> bool
    requires { t ≤ length work.now }
    ensures { result ≡ sort_fits (joint library.now text.now) (part work.now 0 t) work.now m actual (visible_sort (name_of (joint library.now text.now) a)) }
{
    let b = m.visible;
    let n = m.count;
    let pairs = m.pairs;
    let c = actual.visible;
    let k = actual.visible_count;
    if is_formal_sort(library, text, work, t, m, a) {
        return is_paired_sort(library, text, work, t, pairs, c, k, a);
    }
    same_sort_origin(library, text, work, t, b, n, c, k, a)
}

// Is the sort right? A hidden one is what it is.
fn sort_right(
    library: &[u8],
    text: &[u8],
    work: &[u32],
    t: usize,
    m: Mode,
    actual: Form,
    s: u32,
) -> bool
    requires { t ≤ length work.now }
    ensures { result ≡ sort_fits (joint library.now text.now) (part work.now 0 t) work.now m actual (sort_of (joint library.now text.now) (part work.now 0 t) s) }
{
    if s % 2 == 0 {
        return name_right(library, text, work, t, m, actual, s / 2);
    }
    true
}

// Are the inputs of a function of the kind right?
fn inputs_right(
    library: &[u8],
    text: &[u8],
    work: &[u32],
    t: usize,
    m: Mode,
    actual: Form,
    kind: u32,
    sorts: [u32; 9],
) -> bool
    requires { t ≤ length work.now }
    ensures { result ≡ inputs_pass (joint library.now text.now) (part work.now 0 t) (sort_fits (joint library.now text.now) (part work.now 0 t) work.now m actual) (take (kind - 2) sorts) }
{
    let inputs = kind.saturating_sub(kinds::FUNCTION).min(9) as usize;
    for i in 0..inputs {
        if !sort_right(library, text, work, t, m, actual, sorts[i]) {
            return false;
        }
    }
    true
}

// Are all sorts of a function of the kind right?
pub fn sorts_right(
    library: &[u8],
    text: &[u8],
    work: &[u32],
    t: usize,
    m: Mode,
    actual: Form,
    kind: u32,
    sorts: [u32; 9],
) -> bool
    requires { t ≤ length work.now }
    ensures { result ≡ sorts_fit (joint library.now text.now) (part work.now 0 t) work.now m actual (type_of (joint library.now text.now) (part work.now 0 t) (kind - 2) sorts) }
{
    if sort_right(library, text, work, t, m, actual, sorts[8]) {
        return inputs_right(library, text, work, t, m, actual, kind, sorts);
    }
    false
}
