// The parameters of a normal form, each two words, its name and its module's: whether there is one of a name, and all but one.
ghost use Rattle.std.specs.Prelude.{◌≡◌, ◌+◌, ◌*◌, ◌<◌, length};
ghost use Rattle.meaning.specs.Names.{member};
ghost use Rattle.meaning.specs.Normal.{slot_names};
ghost use Rattle.text_names.specs.Word.{name_of};
ghost use Rattle.text_names.specs.Joint.{joint};
ghost use Rattle.form.specs.Forms.{slots_at, slot_size};
ghost use Rattle.clause_checks.specs.KeptParameters.{SlotRoom, SlotCopied, SlotKept, KeepRoom, SlotsKept};

use form::{Form, SLOT_STEP};
use form_rows::entries::{put_word, same_word, word_at};

// Has the form a parameter called p?
pub fn has_parameter(library: &[u8], text: &[u8], work: &[u32], f: Form, p: u32) -> bool
    ensures { result ≡ member (name_of (joint library.now text.now) p) (slot_names (slots_at (joint library.now text.now) work.now f.parameters f.parameter_count)) }
{
    let parameters = f.parameters;
    let count = f.parameter_count;
    for i in 0..count {
        if same_word(
            library,
            text,
            p,
            word_at(work, parameters as usize + i as usize * SLOT_STEP),
        ) {
            return true;
        }
    }
    false
}

// The parameter at place a, to place b.
pub fn copy_parameter(work: &mut [u32], a: usize, b: usize)
    requires { SlotRoom (length work.old) a b }
    ensures { SlotCopied a b work.old work.new }
{
    let name = word_at(work, a);
    let home = word_at(work, a + 1);
    put_word(work, b, name);
    put_word(work, b + 1, home);
}

// The k-th parameter at g behind the n at d, unless it is called p. How many there are after.
fn keep_parameter(
    library: &[u8],
    text: &[u8],
    work: &mut [u32],
    g: u32,
    k: u32,
    p: u32,
    d: u32,
    n: u32,
) -> u32
    requires slot_room { SlotRoom (length work.old) (g + k * slot_size) (d + n * slot_size) }
    requires n_bound { n < 65536 }
    ensures { SlotKept (joint library.now text.now) work.old work.new (g + k * slot_size) p d n result }
{
    let a = g as usize + k as usize * SLOT_STEP;
    let name = word_at(work, a);
    if same_word(library, text, p, name) {
        return n;
    }
    copy_parameter(work, a, d as usize + n as usize * SLOT_STEP);
    n + 1
}

// The parameters of g but the one called p, at the place of y's. How many they are.
pub fn keep_parameters(
    library: &[u8],
    text: &[u8],
    work: &mut [u32],
    g: Form,
    p: u32,
    y: Form,
) -> u32
    requires { KeepRoom (length work.old) g.parameters g.parameter_count y.parameters }
    ensures { SlotsKept (joint library.now text.now) work.old work.new g.parameters g.parameter_count p y.parameters result }
{
    let names = g.parameters;
    let count = g.parameter_count;
    let place = y.parameters;
    let mut n: u32 = 0;
    for k in 0..count {
        n = keep_parameter(library, text, work, names, k, p, place, n);
    }
    n
}
