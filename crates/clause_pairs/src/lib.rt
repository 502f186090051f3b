// What the pairs of a clause make of a name.
#![tactic(auto)]

ghost use Rattle.text_names.specs.Joint.{joint};
ghost use Rattle.clause_pairs.specs.Pairs.{SmallWord, Renamed};

use form_rows::entries::{name_at, role_at, same_word, word_at};
use tape::roles;

// The word of the name at i: small enough to be doubled.
fn small_word(tape: &[u32], i: usize) -> u32
    ensures { SmallWord tape.now i result }
{
    word_at(tape, i) / 32
}

// The word of the new name: that of the first pair whose old name is w's, or w itself. Every pair is asked of the name as it was.
pub fn renaming_word(library: &[u8], text: &[u8], tape: &[u32], pairs: u32, w: u32) -> u32
    ensures { Renamed (joint library.now text.now) tape.now pairs w result }
{
    for k in 0..32 {
        let i = pairs as usize + 2 * k;
        if role_at(tape, i) != roles::OLD {
            return w;
        }
        if same_word(library, text, name_at(tape, i), w) {
            return small_word(tape, i + 1);
        }
    }
    w
}
