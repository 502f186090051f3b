// Step 1: whether the modules that one names are there, and stand before it.
#![tactic(auto)]

ghost use Rattle.std.specs.Prelude.{◌≡◌, take};
ghost use Rattle.meaning.specs.Evaluate.{names_right};
ghost use Rattle.text_names.specs.Word.{name_of};
ghost use Rattle.text_names.specs.Joint.{joint};
ghost use Rattle.form.specs.Verdicts.{told};
ghost use Rattle.modules.specs.Modules.{declared, named_in, heads_in};
ghost use Rattle.module_names.specs.Right.{name_right};

use form::{Culprit, Refusal};
use form_rows::entries::{name_at, role_at};
use meaning::numbers;
use modules::{Heads, find_number, module_count, names_module, place_at};

// Step 1 for the name w of module k: 7 where no module is called so, 8 where none before module k is.
fn name_right(
    library: &[u8],
    text: &[u8],
    tape: &[u32],
    h: &Heads,
    k: u32,
    w: u32,
) -> Result<(), Refusal>
    ensures { told (joint library.now text.now) result ≡ name_right (declared (joint library.now text.now) tape.now (heads_in h.now)) k (name_of (joint library.now text.now) w) }
{
    let count = module_count(h);
    let p = find_number(library, text, tape, h, w);
    if count <= p {
        return Err(Refusal {
            number: numbers::NAMED_ABSENT,
            culprit: Culprit { name: w, actual: 0 },
        });
    }
    if k <= p {
        return Err(Refusal {
            number: numbers::NAMED_LATE,
            culprit: Culprit { name: w, actual: 0 },
        });
    }
    Ok(())
}

// Step 1 for module k: the names of modules among its entries, in text order.
pub fn names_right(
    library: &[u8],
    text: &[u8],
    tape: &[u32],
    h: &Heads,
    k: u32,
) -> Result<(), Refusal>
    ensures { told (joint library.now text.now) result ≡ names_right (declared (joint library.now text.now) tape.now (heads_in h.now)) (take k (declared (joint library.now text.now) tape.now (heads_in h.now))) (named_in (joint library.now text.now) tape.now (heads_in h.now) k) }
{
    let start = place_at(h, k as usize);
    let end = place_at(h, k as usize + 1);
    for j in start..end {
        if names_module(role_at(tape, j as usize)) {
            name_right(library, text, tape, h, k, name_at(tape, j as usize))?;
        }
    }
    Ok(())
}
