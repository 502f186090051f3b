// The pairs of a clause, one by one as they stand on the tape.
ghost use Rattle.std.specs.Prelude.{◌≡◌, ◌+◌, ◌*◌};
ghost use Rattle.meaning.specs.Names.{member};
ghost use Rattle.meaning.specs.Clauses.{paired};
ghost use Rattle.text_names.specs.Word.{name_of};
ghost use Rattle.text_names.specs.Joint.{joint};
ghost use Rattle.form_rows.specs.Entries.{word_at};
ghost use Rattle.clause_pairs.specs.Pairs.{pairs_at};
ghost use Rattle.clause_checks.specs.Pairs.{found, given, pair_count};

use form_rows::entries::{name_at, role_at, same_word};
use tape::roles;

// Where pair k stands.
fn pair_place(pairs: u32, k: u32) -> usize
    ensures { result ≡ pairs + k * 2 }
{
    pairs as usize + k as usize * 2
}

// The word of the old name of pair k.
pub fn old_word(tape: &[u32], pairs: u32, k: u32) -> u32
    ensures { result ≡ word_at tape.now (pairs + k * 2) }
{
    name_at(tape, pair_place(pairs, k))
}

// The word of the new name of pair k.
pub fn new_word(tape: &[u32], pairs: u32, k: u32) -> u32
    ensures { result ≡ word_at tape.now (pairs + k * 2 + 1) }
{
    name_at(tape, pair_place(pairs, k) + 1)
}

// How many pairs there are.
pub fn pair_count(tape: &[u32], pairs: u32) -> u32
    ensures { result ≡ pair_count tape.now pairs 32 }
{
    for k in 0..32 {
        if role_at(tape, pair_place(pairs, k)) != roles::OLD {
            return k;
        }
    }
    32
}

// Is a the old name of one of the first k pairs?
pub fn is_given(library: &[u8], text: &[u8], tape: &[u32], pairs: u32, k: u32, a: u32) -> bool
    ensures { result ≡ member (name_of (joint library.now text.now) a) (given (joint library.now text.now) tape.now pairs k) }
{
    for j in (0..k).rev() {
        if same_word(library, text, a, old_word(tape, pairs, j)) {
            return true;
        }
    }
    false
}

// The word of the new name that the first pair of the name a gives.
pub fn paired_word(library: &[u8], text: &[u8], tape: &[u32], pairs: u32, a: u32) -> Option<u32>
    ensures { found (joint library.now text.now) result ≡ paired (pairs_at (joint library.now text.now) tape.now pairs) (name_of (joint library.now text.now) a) }
{
    let n = pair_count(tape, pairs);
    for k in 0..n {
        if same_word(library, text, old_word(tape, pairs, k), a) {
            return Some(new_word(tape, pairs, k));
        }
    }
    None
}
