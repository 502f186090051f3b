// The least name at which two are at odds, sought pair by pair in an order table.
ghost use Rattle.std.specs.Prelude.{◌≡◌, ◌+◌, ◌*◌, ◌<◌, get_or};
ghost use Rattle.text_names.specs.Joint.{joint};
ghost use Rattle.form_rows.specs.Rows.{row_at, row_size};
ghost use Rattle.form.specs.Forms.{slots_at, items_at, slot_size};
ghost use Rattle.form_order.specs.Order.{InOrder};
ghost use Rattle.unite_checks.specs.Clashes.{named, clash_name, first_rival, repeated_name};

use form::SLOT_SIZE;
use form_order::{name_in, number_in};
use form_rows::entries::same_word;
use form_rows::rows::read_row;
use form_rows::{Row, kinds};
use unite_pairs::{Test, at_odds, same_called};

// The row that is i-th in order.
fn row_by(w: &[u32], b: u32, p: u32, i: u32) -> Row
    ensures { result ≡ row_at w.now (b + get_or w.now (p + i) 0 * row_size) }
{
    let k = number_in(w, p, i);
    read_row(w, b, k)
}

// Where the search for what is at odds with the row x, which is i-th in order, begins: only a sort is at odds with sorts.
fn first_rival(test: Test, x: Row, i: u32, n: u32) -> u32
    requires { i < n }
    ensures { result ≡ first_rival test x.kind i n }
{
    let kind = x.kind;
    match test {
        Test::Sorts => {
            if kind == kinds::SORT {
                return i + 1;
            }
            n
        }
        Test::Functions => i + 1,
        Test::Overloading => i + 1,
    }
}

// The word of the least name of two of the n items at b that are at odds, if there are such. Items of one name stand side by side in the order
// table, so that a row is tested against no more than those of its name.
pub fn find_clash(
    library: &[u8],
    text: &[u8],
    tape: &[u32],
    w: &[u32],
    b: u32,
    n: u32,
    p: u32,
    test: Test,
) -> Option<u32>
    requires { InOrder (joint library.now text.now) w.now (b + 1) row_size p n }
    ensures { named (joint library.now text.now) result ≡ clash_name test (items_at (joint library.now text.now) tape.now w.now b n) }
{
    let mut least = None;
    'outer: for i in 0..n {
        let x = row_by(w, b, p, i);
        for j in first_rival(test, x, i, n)..n {
            let y = row_by(w, b, p, j);
            if !same_called(library, text, x, y) {
                continue 'outer;
            }
            if at_odds(library, text, tape, test, x, y) {
                least = Some(x.name);
                break 'outer;
            }
        }
    }
    least
}

// The word of the name of the parameter that is i-th in order.
fn name_by(w: &[u32], b: u32, p: u32, i: u32) -> u32
    ensures { result ≡ get_or w.now (b + get_or w.now (p + i) 0 * slot_size) 0 }
{
    let k = number_in(w, p, i);
    name_in(w, b, SLOT_SIZE, k)
}

// The word of the least name of two of the n parameters at b, if there are such: in the order table the two are neighbours.
pub fn find_repeated(library: &[u8], text: &[u8], w: &[u32], b: u32, n: u32, p: u32) -> Option<u32>
    requires { InOrder (joint library.now text.now) w.now b slot_size p n }
    ensures { named (joint library.now text.now) result ≡ repeated_name (slots_at (joint library.now text.now) w.now b n) }
{
    for i in 1..n {
        let x = name_by(w, b, p, i - 1);
        let y = name_by(w, b, p, i);
        if same_word(library, text, x, y) {
            return Some(x);
        }
    }
    None
}
