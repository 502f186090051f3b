// A module's own visible items joined to the rows of what it imports: each is found there, or goes behind.
ghost use Rattle.std.specs.Prelude.{false, length};
ghost use Rattle.text_names.specs.Joint.{joint};
ghost use Rattle.form.specs.Memory.{part};
ghost use Rattle.own_declarations.specs.Sorts.{Ready};
ghost use Rattle.own_declarations.specs.Items.{Roomy};
ghost use Rattle.own_items.specs.Joined.{RowRoom, JoinedOne, Joined};

use own_declarations::Own;
use own_declarations::rows::{is_own, own_row};
use unite_items::place_item;

// The item declared at d into the table of k rows at `base`. The number of rows after.
fn join_item(
    library: &[u8],
    text: &[u8],
    work: &mut [u32],
    t: usize,
    own: Own,
    base: u32,
    k: u32,
    d: u32,
) -> u32
    requires ready { Ready work.old t own }
    requires row_room { RowRoom (length work.old) base k }
    ensures { JoinedOne (joint library.now text.now) (part work.old 0 t) work.old own base k d result work.new }
{
    let row = own_row(library, text, work, t, own, d);
    let at = place_item(library, text, work, t, base, k, row);
    if at < k {
        return k;
    }
    k + 1
}

// The module's visible items, in text order, into the table of n rows at `base`. The number of rows after.
pub fn join_visible(
    library: &[u8],
    text: &[u8],
    work: &mut [u32],
    t: usize,
    own: Own,
    base: u32,
    n: u32,
) -> u32
    requires ready { Ready work.old t own }
    requires roomy { Roomy t own false base n work.old }
    ensures { Joined (joint library.now text.now) t own base n work.old work.new result }
{
    let end = own.end;
    let mut k = n;
    for i in own.from..end {
        if !is_own(&work[0..t], false, i) {
            continue;
        }
        k = join_item(library, text, work, t, own, base, k, i);
    }
    k
}
