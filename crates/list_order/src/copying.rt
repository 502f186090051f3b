// Rows copied in the order of an order table, and notes of where each row went.
ghost use Rattle.std.specs.Prelude.{◌≡◌, ◌+◌, ◌*◌, ◌≤◌, ◌<◌, length, get_or, set};
ghost use Rattle.text_names.specs.Joint.{joint};
ghost use Rattle.list_order.specs.Orders.{Small};
ghost use Rattle.list_order.specs.Copying.{RowCopied, RowRoom, CopyRoom, NumberedCopied, RowsCopied, NoteRoom, NotePut, NotesPut, SortRoom, TableSorted, NotedRoom, TableNoted};

use super::Table;
use super::sorting::order_rows;
use form_order::number_in;
use form_rows::ROW_SIZE;
use form_rows::entries::{put_word, word_at};

// The word at a to b.
fn copy_word(work: &mut [u32], a: usize, b: usize)
    ensures { work.new ≡ set work.old b (get_or work.old a 0) }
{
    let v = word_at(work, a);
    put_word(work, b, v);
}

// Row r of the table at `from` to row i of the table at `to`; rows have `size` words.
fn copy_row(work: &mut [u32], from: u32, r: u32, to: u32, i: u32, size: u32)
    requires { RowRoom (length work.old) (from + r * size) (to + i * size) size }
    ensures { RowCopied (from + r * size) (to + i * size) size work.old work.new }
{
    let n = size as usize;
    let a = from as usize + r as usize * n;
    let b = to as usize + i as usize * n;
    // not `copy_within`: a row may be read past the memory's end, where words are 0
    for j in 0..n {
        copy_word(work, a + j, b + j);
    }
}

// The row of the table at `from` whose number stands i-th in the order table, if it is one of the n, to row i of the table at `to`.
fn copy_numbered(
    work: &mut [u32],
    from: u32,
    n: u32,
    order: u32,
    m: u32,
    to: u32,
    size: u32,
    i: u32,
)
    requires copy_room { CopyRoom (length work.old) from n order m to size }
    requires i_lt_m { i < m }
    ensures { NumberedCopied from n order to size i work.old work.new }
{
    let r = number_in(work, order, i);
    if r < n {
        copy_row(work, from, r, to, i, size);
    }
}

// The m rows of the table at `from` whose numbers stand in the order table, in its order, to the table at `to`.
pub fn copy_rows(work: &mut [u32], from: u32, n: u32, order: u32, m: u32, to: u32, size: u32)
    requires { CopyRoom (length work.old) from n order m to size }
    ensures { RowsCopied from n order m to size work.old work.new }
{
    for i in 0..m {
        copy_numbered(work, from, n, order, m, to, size, i);
    }
}

// The number that stands i-th in the order table is noted to have gone to i.
fn note_row(work: &mut [u32], order: u32, m: u32, notes: u32, n: u32, i: u32)
    requires { NoteRoom (length work.old) order m notes n }
    ensures { NotePut order notes n i work.old work.new }
{
    let r = number_in(work, order, i);
    if r < n {
        put_word(work, notes as usize + r as usize, i);
    }
}

// A note for each of the m rows of the order table, of where it stands there.
pub fn note_rows(work: &mut [u32], order: u32, m: u32, notes: u32, n: u32)
    requires { NoteRoom (length work.old) order m notes n }
    ensures { NotesPut order m notes n work.old work.new }
{
    for i in 0..m {
        note_row(work, order, m, notes, n, i);
    }
}

// The n rows of the table at `from`, those that are to be put in order, in order to the table at `to`; and how many they are.
pub fn sort_rows(
    library: &[u8],
    text: &[u8],
    work: &mut [u32],
    t: usize,
    table: Table,
    from: u32,
    n: u32,
    order: u32,
    to: u32,
    size: u32,
) -> u32
    requires sort_room { SortRoom (length work.old) t from n order to size }
    requires small { Small table }
    ensures { TableSorted (joint library.now text.now) t table from n order to size result work.old work.new }
{
    let m = order_rows(library, text, work, t, table, n, order);
    copy_rows(work, from, n, order, m, to, size);
    m
}

// Items in order, as `sort_rows` puts them, and a note for each of the n rows of where it went.
pub fn put_table(
    library: &[u8],
    text: &[u8],
    work: &mut [u32],
    t: usize,
    table: Table,
    from: u32,
    n: u32,
    order: u32,
    to: u32,
    notes: u32,
) -> u32
    requires noted_room { NotedRoom (length work.old) t from n order to notes }
    requires small { Small table }
    ensures { TableNoted (joint library.now text.now) t table from n order to notes result work.old work.new }
{
    let m = sort_rows(library, text, work, t, table, from, n, order, to, ROW_SIZE);
    note_rows(work, order, m, notes, n);
    m
}
