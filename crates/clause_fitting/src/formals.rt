// Formal items by name: whether there is one, and the least name among them that no pair binds.
ghost use Rattle.std.specs.Prelude.{◌≡◌, ◌+◌, ◌*◌, ◌≤◌, length};
ghost use Rattle.meaning.specs.Lists.{before};
ghost use Rattle.meaning.specs.Names.{lesser};
ghost use Rattle.meaning.specs.Clauses.{unpaired};
ghost use Rattle.text_names.specs.Word.{name_of};
ghost use Rattle.text_names.specs.Joint.{joint};
ghost use Rattle.form_rows.specs.Rows.{item_of, row_at, row_size};
ghost use Rattle.form.specs.Memory.{part};
ghost use Rattle.form.specs.Forms.{items_at};
ghost use Rattle.clause_pairs.specs.Pairs.{pairs_at};
ghost use Rattle.clause_translation.specs.Translation.{mode_formals};
ghost use Rattle.clause_checks.specs.Pairs.{found};
ghost use Rattle.clause_fitting.specs.Unpaired.{formal_called, is_unpaired, unpaired_from};

use clause_checks::pairs::paired_word;
use clause_translation::Mode;
use clause_translation::formals::in_parameter;
use form_rows::Row;
use form_rows::entries::same_word;
use form_rows::rows::read_row;
use text_names::joint::not_after;

// Stands the row in the parameter p, and is it called a?
pub fn is_formal_called(library: &[u8], text: &[u8], tape: &[u32], p: u32, a: u32, row: Row) -> bool
    ensures { result ≡ formal_called (name_of (joint library.now text.now) p) (name_of (joint library.now text.now) a) (item_of (joint library.now text.now) tape.now row) }
{
    let standing = row.standing;
    if in_parameter(library, text, p, standing) {
        let name = row.name;
        return same_word(library, text, a, name);
    }
    false
}

// The first formal row that is called a; the number of rows if there is none.
pub fn find_formal(library: &[u8], text: &[u8], work: &[u32], t: usize, m: Mode, a: u32) -> u32
    requires { t ≤ length work.now }
    ensures { result ≡ before (formal_called (name_of (joint library.now text.now) m.parameter) (name_of (joint library.now text.now) a)) (items_at (joint library.now text.now) (part work.now 0 t) work.now m.visible m.count) }
{
    let b = m.visible;
    let n = m.count;
    let p = m.parameter;
    for i in 0..n {
        let row = read_row(work, b, i);
        if is_formal_called(library, text, &work[0..t], p, a, row) {
            return i;
        }
    }
    n
}

// Stands the row in the mode's parameter, with a name that no pair binds?
fn is_unpaired(library: &[u8], text: &[u8], tape: &[u32], m: Mode, row: Row) -> bool
    ensures { result ≡ is_unpaired (name_of (joint library.now text.now) m.parameter) (pairs_at (joint library.now text.now) tape.now m.pairs) (item_of (joint library.now text.now) tape.now row) }
{
    let p = m.parameter;
    let standing = row.standing;
    if in_parameter(library, text, p, standing) {
        let pairs = m.pairs;
        let name = row.name;
        let new = paired_word(library, text, tape, pairs, name);
        match new {
            Some(_) => false,
            None => true,
        }
    } else {
        false
    }
}

// The lesser of a name and one that may be there.
fn lesser_name(library: &[u8], text: &[u8], a: u32, best: Option<u32>) -> Option<u32>
    ensures { found (joint library.now text.now) result ≡ lesser (name_of (joint library.now text.now) a) (found (joint library.now text.now) best) }
{
    match best {
        Some(b) => {
            if not_after(library, text, a, b) {
                Some(a)
            } else {
                Some(b)
            }
        }
        None => Some(a),
    }
}

// The least unpaired name from row k on, where `best` is the least behind it.
fn least_from(
    library: &[u8],
    text: &[u8],
    work: &[u32],
    t: usize,
    m: Mode,
    k: u32,
    best: Option<u32>,
) -> Option<u32>
    requires { t ≤ length work.now }
    ensures { found (joint library.now text.now) result ≡ unpaired_from (name_of (joint library.now text.now) m.parameter) (pairs_at (joint library.now text.now) (part work.now 0 t) m.pairs) (item_of (joint library.now text.now) (part work.now 0 t) (row_at work.now (m.visible + k * row_size))) (found (joint library.now text.now) best) }
{
    let b = m.visible;
    let row = read_row(work, b, k);
    let name = row.name;
    if is_unpaired(library, text, &work[0..t], m, row) {
        return lesser_name(library, text, name, best);
    }
    best
}

// The least formal name without a pair, from the last row to the first.
pub fn least_unpaired(library: &[u8], text: &[u8], work: &[u32], t: usize, m: Mode) -> Option<u32>
    requires { t ≤ length work.now }
    ensures { found (joint library.now text.now) result ≡ unpaired (mode_formals (joint library.now text.now) (part work.now 0 t) work.now m) (pairs_at (joint library.now text.now) (part work.now 0 t) m.pairs) }
{
    let mut best = None;
    for k in (0..m.count).rev() {
        best = least_from(library, text, work, t, m, k, best);
    }
    best
}
