// Parameters of normal forms in the working memory by their slots: the name, and the module that declares it.
#![tactic(auto)]

ghost use Rattle.std.specs.Prelude.{◌≡◌, ◌^◌, ◌≤◌};
ghost use Rattle.meaning.specs.Lists.{any};
ghost use Rattle.meaning.specs.Normal.{same_slot};
ghost use Rattle.text_names.specs.Joint.{joint};
ghost use Rattle.form.specs.Forms.{slot_at, slots_at};

use form::{Form, SLOT_STEP};
use form_rows::entries::{same_word, word_at};

// Are the parameters at places a and b of one name, and declared in one module?
fn same_slot(library: &[u8], text: &[u8], work: &[u32], a: usize, b: usize) -> bool
    requires a_bound { a ≤ 2 ^ 40 }
    requires b_bound { b ≤ 2 ^ 40 }
    ensures { result ≡ same_slot (slot_at (joint library.now text.now) work.now a) (slot_at (joint library.now text.now) work.now b) }
{
    if same_word(library, text, word_at(work, a), word_at(work, b)) {
        return same_word(library, text, word_at(work, a + 1), word_at(work, b + 1));
    }
    false
}

// Has f a parameter of the name and the module of the one at place q?
pub fn has_slot(library: &[u8], text: &[u8], work: &[u32], f: Form, q: usize) -> bool
    requires { q ≤ 2 ^ 40 }
    ensures { result ≡ any (same_slot (slot_at (joint library.now text.now) work.now q)) (slots_at (joint library.now text.now) work.now f.parameters f.parameter_count) }
{
    let base = f.parameters;
    let count = f.parameter_count;
    for i in 0..count {
        if same_slot(
            library,
            text,
            work,
            q,
            base as usize + i as usize * SLOT_STEP,
        ) {
            return true;
        }
    }
    false
}
