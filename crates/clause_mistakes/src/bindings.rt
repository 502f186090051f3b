// The check of a binding's pairs, 22 to 26: a pair gets the first number that fits, and the first pair that gets one is told.
ghost use Rattle.std.specs.Prelude.{◌≡◌, [], ◌≤◌, length};
ghost use Rattle.meaning.specs.Clauses.{pair_right, pairs_right};
ghost use Rattle.text_names.specs.Word.{name_of};
ghost use Rattle.text_names.specs.Joint.{joint};
ghost use Rattle.form.specs.Memory.{part};
ghost use Rattle.form.specs.Forms.{visible_at};
ghost use Rattle.form.specs.Verdicts.{told};
ghost use Rattle.clause_pairs.specs.Pairs.{pairs_at};
ghost use Rattle.clause_translation.specs.Translation.{mode_formals};
ghost use Rattle.clause_checks.specs.Pairs.{given, pair_at};
ghost use Rattle.clause_fitting.specs.Fits.{mode_whole};
ghost use Rattle.clause_mistakes.specs.ItemsFit.{items_fit};

use clause_checks::pairs::{is_given, new_word, old_word, pair_count};
use clause_checks::searches::is_visible;
use clause_fitting::formals::find_formal;
use clause_fitting::items::all_right;
use clause_translation::Mode;
use form::{Culprit, Form, Refusal};
use meaning::numbers;

// 25, 26: by the kinds, and then by the types.
fn items_right(
    library: &[u8],
    text: &[u8],
    work: &[u32],
    t: usize,
    m: Mode,
    actual: Form,
    old: u32,
    new: u32,
) -> Result<(), Refusal>
    requires t_in_bounds { t ≤ length work.now }
    requires kind_value { m.kind ≡ 2 }
    ensures { told (joint library.now text.now) result ≡ items_fit (joint library.now text.now) (part work.now 0 t) work.now m actual (name_of (joint library.now text.now) old) (name_of (joint library.now text.now) new) }
{
    let both = Culprit {
        name: old,
        actual: new,
    };
    if all_right(library, text, work, t, m, actual, false, old, new) {
        if all_right(library, text, work, t, m, actual, true, old, new) {
            return Ok(());
        }
        return Err(Refusal {
            number: numbers::OTHER_TYPE,
            culprit: both,
        });
    }
    Err(Refusal {
        number: numbers::OTHER_KIND,
        culprit: both,
    })
}

// Pair k: 22 where no formal item has its old name, 23 where a pair before gives it, 24 where nothing visible has its new name; then 25, 26.
fn pair_right(
    library: &[u8],
    text: &[u8],
    work: &[u32],
    t: usize,
    m: Mode,
    actual: Form,
    k: u32,
) -> Result<(), Refusal>
    requires t_in_bounds { t ≤ length work.now }
    requires kind_value { m.kind ≡ 2 }
    ensures { told (joint library.now text.now) result ≡ pair_right (mode_formals (joint library.now text.now) (part work.now 0 t) work.now m) (pairs_at (joint library.now text.now) (part work.now 0 t) m.pairs) (mode_whole (joint library.now text.now) (part work.now 0 t) work.now m) (visible_at (joint library.now text.now) (part work.now 0 t) work.now actual) (given (joint library.now text.now) (part work.now 0 t) m.pairs k) (pair_at (joint library.now text.now) (part work.now 0 t) m.pairs k) }
{
    let pairs = m.pairs;
    let n = m.count;
    let b = actual.visible;
    let c = actual.visible_count;
    let old = old_word(&work[0..t], pairs, k);
    let new = new_word(&work[0..t], pairs, k);
    let both = Culprit {
        name: old,
        actual: new,
    };
    if find_formal(library, text, work, t, m, old) < n {
        if is_given(library, text, &work[0..t], pairs, k, old) {
            return Err(Refusal {
                number: numbers::FORMAL_TWICE,
                culprit: both,
            });
        }
        if is_visible(library, text, work, t, b, c, new) {
            return items_right(library, text, work, t, m, actual, old, new);
        }
        return Err(Refusal {
            number: numbers::ACTUAL_ABSENT,
            culprit: both,
        });
    }
    Err(Refusal {
        number: numbers::FORMAL_ABSENT,
        culprit: both,
    })
}

// The pairs in text order, up to the first that is wrong.
pub fn pairs_right(
    library: &[u8],
    text: &[u8],
    work: &[u32],
    t: usize,
    m: Mode,
    actual: Form,
) -> Result<(), Refusal>
    requires t_in_bounds { t ≤ length work.now }
    requires kind_value { m.kind ≡ 2 }
    ensures { told (joint library.now text.now) result ≡ pairs_right (mode_formals (joint library.now text.now) (part work.now 0 t) work.now m) (pairs_at (joint library.now text.now) (part work.now 0 t) m.pairs) (mode_whole (joint library.now text.now) (part work.now 0 t) work.now m) (visible_at (joint library.now text.now) (part work.now 0 t) work.now actual) [] (pairs_at (joint library.now text.now) (part work.now 0 t) m.pairs) }
{
    let pairs = m.pairs;
    let n = pair_count(&work[0..t], pairs);
    for k in 0..n {
        pair_right(library, text, work, t, m, actual, k)?;
    }
    Ok(())
}
