// An item sought among the rows of a table in the working memory.
#![tactic(auto)]

ghost use Rattle.std.specs.Prelude.{◌≡◌, ◌+◌, ◌*◌, ◌≤◌, length};
ghost use Rattle.meaning.specs.Lists.{before};
ghost use Rattle.meaning.specs.Origins.{one_item};
ghost use Rattle.text_names.specs.Joint.{joint};
ghost use Rattle.form_rows.specs.Rows.{item_of, row_at, row_size};
ghost use Rattle.form.specs.Memory.{part};
ghost use Rattle.form.specs.Forms.{items_at};

use form_comparing::sorts::one_item;
use form_rows::entries::{same_word, word_at};
use form_rows::rows::read_row;
use form_rows::{ROW_STEP, Row};

// Is row i of the table at `base` one with x? Names are compared first, and decide most: only then the row is read.
fn is_item(library: &[u8], text: &[u8], work: &[u32], t: usize, base: u32, i: u32, x: Row) -> bool
    requires { t ≤ length work.now }
    ensures { result ≡ one_item (item_of (joint library.now text.now) (part work.now 0 t) x) (item_of (joint library.now text.now) (part work.now 0 t) (row_at work.now (base + i * row_size))) }
{
    let name = x.name;
    let called = word_at(work, base as usize + i as usize * ROW_STEP + 1);
    if same_word(library, text, name, called) {
        let y = read_row(work, base, i);
        return one_item(library, text, &work[0..t], x, y);
    }
    false
}

// The first of n rows that is one with x; n if there is none.
pub fn find_item(
    library: &[u8],
    text: &[u8],
    work: &[u32],
    t: usize,
    base: u32,
    n: u32,
    x: Row,
) -> u32
    requires { t ≤ length work.now }
    ensures { result ≡ before (one_item (item_of (joint library.now text.now) (part work.now 0 t) x)) (items_at (joint library.now text.now) (part work.now 0 t) work.now base n) }
{
    for i in 0..n {
        if is_item(library, text, work, t, base, i, x) {
            return i;
        }
    }
    n
}
