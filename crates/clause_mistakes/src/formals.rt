// The check of the formal names after the pairs, 27: the least that no pair binds is told.
ghost use Rattle.std.specs.Prelude.{◌≡◌, ◌≤◌, length};
ghost use Rattle.meaning.specs.Numbers.{formal_unpaired};
ghost use Rattle.meaning.specs.Checks.{unless};
ghost use Rattle.meaning.specs.Clauses.{unpaired};
ghost use Rattle.text_names.specs.Joint.{joint};
ghost use Rattle.form.specs.Memory.{part};
ghost use Rattle.form.specs.Verdicts.{told};
ghost use Rattle.clause_pairs.specs.Pairs.{pairs_at};
ghost use Rattle.clause_translation.specs.Translation.{mode_formals};

use clause_fitting::formals::least_unpaired;
use clause_translation::Mode;
use form::{Culprit, Refusal};
use meaning::numbers;

// 27: the least formal name without a pair.
pub fn unpaired(library: &[u8], text: &[u8], work: &[u32], t: usize, m: Mode) -> Result<(), Refusal>
    requires { t ≤ length work.now }
    ensures { told (joint library.now text.now) result ≡ unless formal_unpaired (unpaired (mode_formals (joint library.now text.now) (part work.now 0 t) work.now m) (pairs_at (joint library.now text.now) (part work.now 0 t) m.pairs)) }
{
    let least = least_unpaired(library, text, work, t, m);
    match least {
        Some(w) => Err(Refusal {
            number: numbers::FORMAL_UNPAIRED,
            culprit: Culprit { name: w, actual: 0 },
        }),
        None => Ok(()),
    }
}
