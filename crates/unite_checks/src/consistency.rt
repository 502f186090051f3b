// Parameters of one name, clashes and overloading, in this order: what is checked of the visible items and M's own hidden ones.
ghost use Rattle.std.specs.Prelude.{◌≡◌, ◌+◌, ◌≤◌, length};
ghost use Rattle.text_names.specs.Joint.{joint};
ghost use Rattle.form_rows.specs.Rows.{row_size};
ghost use Rattle.form.specs.Memory.{part};
ghost use Rattle.form.specs.Forms.{items_at};
ghost use Rattle.form.specs.Verdicts.{told};
ghost use Rattle.form_order.specs.Order.{InOrder};
ghost use Rattle.unite_checks.specs.Consistent.{overloading_check, functions_check, items_check, Laid, RowsLaid, ItemsChecked, Checked};

use super::clashes::{find_clash, find_repeated};
use form::{Culprit, Refusal, SLOT_SIZE};
use form_order::order_names;
use form_rows::ROW_SIZE;
use meaning::numbers;
use unite_pairs::Test;

fn check_overloading(
    library: &[u8],
    text: &[u8],
    tape: &[u32],
    w: &[u32],
    b: u32,
    n: u32,
    p: u32,
) -> Result<(), Refusal>
    requires { InOrder (joint library.now text.now) w.now (b + 1) row_size p n }
    ensures { told (joint library.now text.now) result ≡ overloading_check (items_at (joint library.now text.now) tape.now w.now b n) }
{
    let found = find_clash(library, text, tape, w, b, n, p, Test::Overloading);
    match found {
        Some(x) => Err(Refusal {
            number: numbers::OVERLOADING,
            culprit: Culprit { name: x, actual: 0 },
        }),
        None => Ok(()),
    }
}

fn check_functions(
    library: &[u8],
    text: &[u8],
    tape: &[u32],
    w: &[u32],
    b: u32,
    n: u32,
    p: u32,
) -> Result<(), Refusal>
    requires { InOrder (joint library.now text.now) w.now (b + 1) row_size p n }
    ensures { told (joint library.now text.now) result ≡ functions_check (items_at (joint library.now text.now) tape.now w.now b n) }
{
    let found = find_clash(library, text, tape, w, b, n, p, Test::Functions);
    match found {
        Some(x) => Err(Refusal {
            number: numbers::CLASHING,
            culprit: Culprit { name: x, actual: 0 },
        }),
        None => check_overloading(library, text, tape, w, b, n, p),
    }
}

fn check_items(
    library: &[u8],
    text: &[u8],
    tape: &[u32],
    w: &[u32],
    b: u32,
    n: u32,
    p: u32,
) -> Result<(), Refusal>
    requires { InOrder (joint library.now text.now) w.now (b + 1) row_size p n }
    ensures { told (joint library.now text.now) result ≡ items_check (items_at (joint library.now text.now) tape.now w.now b n) }
{
    let found = find_clash(library, text, tape, w, b, n, p, Test::Sorts);
    match found {
        Some(x) => Err(Refusal {
            number: numbers::CLASHING,
            culprit: Culprit { name: x, actual: 0 },
        }),
        None => check_functions(library, text, tape, w, b, n, p),
    }
}

// The n rows at b, whose order table is made.
fn check_ordered(
    library: &[u8],
    text: &[u8],
    work: &[u32],
    t: usize,
    b: u32,
    n: u32,
    p: u32,
) -> Result<(), Refusal>
    requires t_in_bounds { t ≤ length work.now }
    requires in_order { InOrder (joint library.now text.now) work.now (b + 1) row_size p n }
    ensures { told (joint library.now text.now) result ≡ items_check (items_at (joint library.now text.now) (part work.now 0 t) work.now b n) }
{
    check_items(library, text, &work[0..t], work, b, n, p)
}

// The n rows at b, through an order table at p.
fn check_rows(
    library: &[u8],
    text: &[u8],
    work: &mut [u32],
    t: usize,
    b: u32,
    n: u32,
    p: u32,
) -> Result<(), Refusal>
    requires { RowsLaid (length work.old) t b n p }
    ensures { ItemsChecked (joint library.now text.now) work.old work.new t b n p result }
{
    order_names(library, text, work, b + 1, ROW_SIZE, n, p);
    check_ordered(library, text, work, t, b, n, p)
}

// The np parameters at q, and the n rows at b, through order tables at p.
pub fn consistent(
    library: &[u8],
    text: &[u8],
    work: &mut [u32],
    t: usize,
    q: u32,
    np: u32,
    b: u32,
    n: u32,
    p: u32,
) -> Result<(), Refusal>
    requires { Laid (length work.old) t q np b n p }
    ensures { Checked (joint library.now text.now) work.old work.new t q np b n p result }
{
    order_names(library, text, work, q, SLOT_SIZE, np, p);
    let twice = find_repeated(library, text, work, q, np, p);
    match twice {
        Some(x) => Err(Refusal {
            number: numbers::BAD_PARAMETER,
            culprit: Culprit { name: x, actual: 0 },
        }),
        None => check_rows(library, text, work, t, b, n, p),
    }
}
