// The order table of a table's rows: the numbers of its rows in the order of the rows, which stay where they are. The order table begins at
// place p of the working memory, behind all that the rows are compared by.
ghost use Rattle.std.specs.Prelude.{◌≡◌, ◌+◌, ◌≤◌, ◌<◌, length, get_or};
ghost use Rattle.text_names.specs.Joint.{joint};
ghost use Rattle.form.specs.Memory.{part};
ghost use Rattle.list_order.specs.Orders.{Small, row_order, is_listed};
ghost use Rattle.list_order.specs.Tables.{InRows, Spot, RowPut, RowsOrdered};

use super::Table;
use super::comparing::row_not_after;
use form_order::{insert_word, middle, number_in};
use form_rows::entries::word_at;
use form_rows::{ROW_STEP, kinds};

// Is row i one of those that are put in order?
fn is_listed(work: &[u32], table: Table, i: u32) -> bool
    ensures { result ≡ is_listed work.now table i }
{
    match table {
        Table::Visible(_) => true,
        Table::Sorts(b) => word_at(work, b as usize + i as usize * ROW_STEP + 2) == kinds::SORT,
        Table::Hidden(_, _, _) => true,
        Table::Equations(_, _, _) => true,
    }
}

// Does the row that is i-th in the order table at p come not after row x?
fn comes_before(
    library: &[u8],
    text: &[u8],
    tape: &[u32],
    low: &[u32],
    work: &[u32],
    table: Table,
    p: u32,
    i: u32,
    x: u32,
) -> bool
    requires { Small table }
    ensures { result ≡ row_order (joint library.now text.now) tape.now low.now table (get_or work.now (p + i) 0) x }
{
    let k = number_in(work, p, i);
    row_not_after(library, text, tape, low, table, k, x)
}

// Where row x belongs among the m rows of the order table: behind all that are not after it.
fn find_place(
    library: &[u8],
    text: &[u8],
    tape: &[u32],
    low: &[u32],
    work: &[u32],
    table: Table,
    p: u32,
    m: u32,
    x: u32,
) -> u32
    requires small { Small table }
    requires in_rows { InRows (joint library.now text.now) tape.now low.now work.now table p x m }
    ensures { Spot (joint library.now text.now) tape.now low.now work.now table p m x result }
{
    let mut lo = 0;
    let mut hi = m;
    // a while: each turn looks in the middle of what is left
    while lo < hi {
        let mid = middle(lo, hi);
        if comes_before(library, text, tape, low, work, table, p, mid, x) {
            lo = mid + 1;
        } else {
            hi = mid;
        }
    }
    lo
}

// The same, where the tape and all that the rows are compared by stand in front of the order table.
fn place_of(
    library: &[u8],
    text: &[u8],
    work: &[u32],
    t: usize,
    table: Table,
    p: u32,
    m: u32,
    x: u32,
) -> u32
    requires t_le_p { t ≤ p }
    requires p_in_bounds { p ≤ length work.now }
    requires small { Small table }
    requires in_rows { InRows (joint library.now text.now) (part work.now 0 t) (part work.now 0 p) work.now table p x m }
    ensures { Spot (joint library.now text.now) (part work.now 0 t) (part work.now 0 p) work.now table p m x result }
{
    let end = p as usize;
    find_place(
        library,
        text,
        &work[0..t],
        &work[0..end],
        work,
        table,
        p,
        m,
        x,
    )
}

// Row r put in its place, if it is to be: how many the order table has now.
fn order_row(
    library: &[u8],
    text: &[u8],
    work: &mut [u32],
    t: usize,
    table: Table,
    p: u32,
    m: u32,
    r: u32,
) -> u32
    requires t_le_p { t ≤ p }
    requires m_le_r { m ≤ r }
    requires r_bound { r < 4294967295 }
    requires r_in_bounds { p + r < length work.old }
    requires small { Small table }
    requires in_rows { InRows (joint library.now text.now) (part work.old 0 t) (part work.old 0 p) work.old table p r m }
    ensures { RowPut (joint library.now text.now) t work.old work.new table p r result }
{
    let end = p as usize;
    if is_listed(&work[0..end], table, r) {
        let k = place_of(library, text, work, t, table, p, m, r);
        let a = end + k as usize;
        let e = end + m as usize;
        insert_word(work, a, e, r);
        return m + 1;
    }
    m
}

// The numbers of the table's n rows in order, those that are to be, from p on; and how many they are.
pub fn order_rows(
    library: &[u8],
    text: &[u8],
    work: &mut [u32],
    t: usize,
    table: Table,
    n: u32,
    p: u32,
) -> u32
    requires t_le_p { t ≤ p }
    requires n_in_bounds { p + n ≤ length work.old }
    requires small { Small table }
    ensures { RowsOrdered (joint library.now text.now) t work.old work.new table p n result }
{
    let mut m = 0;
    for r in 0..n {
        m = order_row(library, text, work, t, table, p, m, r);
    }
    m
}
