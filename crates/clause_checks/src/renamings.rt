// The check of a renaming's pairs, 14: every old name is visible, none is given twice, and an operator fits all that it is the new name of.
ghost use Rattle.std.specs.Prelude.{◌≡◌, [], ◌≤◌, length};
ghost use Rattle.meaning.specs.Numbers.{bad_renaming};
ghost use Rattle.meaning.specs.Lists.{before};
ghost use Rattle.meaning.specs.Checks.{unless};
ghost use Rattle.meaning.specs.Clauses.{renames, wrong_renaming};
ghost use Rattle.text_names.specs.Word.{name_of};
ghost use Rattle.text_names.specs.Joint.{joint};
ghost use Rattle.form_rows.specs.Rows.{item_of};
ghost use Rattle.form.specs.Memory.{part};
ghost use Rattle.form.specs.Forms.{items_at};
ghost use Rattle.form.specs.Verdicts.{told};
ghost use Rattle.clause_pairs.specs.Pairs.{pairs_at};
ghost use Rattle.clause_checks.specs.Pairs.{pair_at, rightly};
ghost use Rattle.clause_checks.specs.Renamed.{unfit};

use super::pairs::{is_given, new_word, old_word, pair_count};
use super::searches::is_visible;
use clause_names::may_name;
use form::{Culprit, Refusal};
use form_rows::Row;
use form_rows::entries::same_word;
use form_rows::rows::read_row;
use meaning::numbers;
use text_names::joint::is_operator;

// Is the row called `old`, though `new` may not stand for it?
fn is_unfit(library: &[u8], text: &[u8], tape: &[u32], old: u32, new: u32, row: Row) -> bool
    ensures { result ≡ unfit (name_of (joint library.now text.now) old) (name_of (joint library.now text.now) new) (item_of (joint library.now text.now) tape.now row) }
{
    let name = row.name;
    if same_word(library, text, old, name) {
        let kind = row.kind;
        if may_name(library, text, new, kind) {
            return false;
        }
        return true;
    }
    false
}

// The first such row; the number of rows if there is none.
fn find_unfit(
    library: &[u8],
    text: &[u8],
    work: &[u32],
    t: usize,
    b: u32,
    n: u32,
    old: u32,
    new: u32,
) -> u32
    requires { t ≤ length work.now }
    ensures { result ≡ before (unfit (name_of (joint library.now text.now) old) (name_of (joint library.now text.now) new)) (items_at (joint library.now text.now) (part work.now 0 t) work.now b n) }
{
    for i in 0..n {
        let row = read_row(work, b, i);
        if is_unfit(library, text, &work[0..t], old, new, row) {
            return i;
        }
    }
    n
}

// Is the old name of pair k visible among the rows, and may the new one stand for all that it renames?
fn pair_renames(
    library: &[u8],
    text: &[u8],
    work: &[u32],
    t: usize,
    pairs: u32,
    k: u32,
    visible: u32,
    count: u32,
) -> bool
    requires { t ≤ length work.now }
    ensures { result ≡ renames (items_at (joint library.now text.now) (part work.now 0 t) work.now visible count) (pair_at (joint library.now text.now) (part work.now 0 t) pairs k) }
{
    let old = old_word(&work[0..t], pairs, k);
    if is_visible(library, text, work, t, visible, count, old) {
        let new = new_word(&work[0..t], pairs, k);
        if is_operator(library, text, new) {
            return count <= find_unfit(library, text, work, t, visible, count, old, new);
        }
        return true;
    }
    false
}

// Does pair k rename, and is its old name given by no pair before?
fn renames(
    library: &[u8],
    text: &[u8],
    work: &[u32],
    t: usize,
    pairs: u32,
    k: u32,
    visible: u32,
    count: u32,
) -> bool
    requires { t ≤ length work.now }
    ensures { result ≡ rightly (renames (items_at (joint library.now text.now) (part work.now 0 t) work.now visible count)) (joint library.now text.now) (part work.now 0 t) pairs k }
{
    if pair_renames(library, text, work, t, pairs, k, visible, count) {
        let old = old_word(&work[0..t], pairs, k);
        if is_given(library, text, &work[0..t], pairs, k, old) {
            return false;
        }
        return true;
    }
    false
}

// The first pair that is wrong, or whose old name was given before.
pub fn wrong_renaming(
    library: &[u8],
    text: &[u8],
    work: &[u32],
    t: usize,
    pairs: u32,
    visible: u32,
    count: u32,
) -> Result<(), Refusal>
    requires { t ≤ length work.now }
    ensures { told (joint library.now text.now) result ≡ unless bad_renaming (wrong_renaming (items_at (joint library.now text.now) (part work.now 0 t) work.now visible count) [] (pairs_at (joint library.now text.now) (part work.now 0 t) pairs)) }
{
    let n = pair_count(&work[0..t], pairs);
    for k in 0..n {
        if !renames(library, text, work, t, pairs, k, visible, count) {
            return Err(Refusal {
                number: numbers::BAD_RENAMING,
                culprit: Culprit {
                    name: old_word(&work[0..t], pairs, k),
                    actual: 0,
                },
            });
        }
    }
    Ok(())
}
