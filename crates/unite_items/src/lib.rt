// Items of one table absorbed into another, all in one working memory: each is found there, or goes behind. A note says where each went.
#![tactic(auto)]

ghost use Rattle.std.specs.Prelude.{◌≡◌, ◌≤◌, length};
ghost use Rattle.text_names.specs.Joint.{joint};
ghost use Rattle.form_rows.specs.Rows.{item_of};
ghost use Rattle.form.specs.Memory.{part};
ghost use Rattle.unite_items.specs.Absorb.{Placed, Absorbed, AbsorbedWithin, taken};
ghost use Rattle.unite_items.specs.Turns.{Space, Place, Taken, TurnRoom, Turned, RoomWithin, Room};

use clause_translation::Mode;
use clause_translation::formals::in_parameter;
use clause_translation::rows::moved_row;
use form_rows::Row;
use form_rows::entries::put_word;
use form_rows::rows::{read_row, write_row};
use unite_finding::find_item;

// The row of x, which goes behind the n rows if it is none of them.
pub fn place_item(
    library: &[u8],
    text: &[u8],
    work: &mut [u32],
    t: usize,
    base: u32,
    n: u32,
    x: Row,
) -> u32
    requires { Space (length work.old) t base n x }
    ensures { Placed (joint library.now text.now) (part work.old 0 t) work.old base n (item_of (joint library.now text.now) (part work.old 0 t) x) result work.new }
{
    let at = find_item(library, text, work, t, base, n, x);
    if at < n {
        return at;
    }
    write_row(work, base, n, x);
    n
}

// Is the row taken? Where `drop` says so, those that stand in the parameter are left out.
fn is_taken(library: &[u8], text: &[u8], tape: &[u32], drop: bool, m: Mode, row: Row) -> bool
    ensures { result ≡ taken (joint library.now text.now) drop m.parameter (item_of (joint library.now text.now) tape.now row) }
{
    if drop {
        let p = m.parameter;
        let standing = row.standing;
        if in_parameter(library, text, p, standing) {
            return false;
        }
        return true;
    }
    true
}

// The row, moved, into the table at d, which has n rows; where it went is noted at `place`. The number of rows after.
fn take_row(
    library: &[u8],
    text: &[u8],
    work: &mut [u32],
    t: usize,
    m: Mode,
    visible: bool,
    row: Row,
    d: u32,
    n: u32,
    place: usize,
) -> u32
    requires { Place (length work.old) t d n place row }
    ensures { Taken (joint library.now text.now) (part work.old 0 t) work.old m visible (item_of (joint library.now text.now) (part work.old 0 t) row) d n place result work.new }
{
    let moved = moved_row(library, text, work, t, m, visible, row);
    let at = place_item(library, text, work, t, d, n, moved);
    put_word(work, place, at);
    if at < n {
        return n;
    }
    n + 1
}

// Row k of the source at s into the table at d, which has n rows. The number of rows after.
fn absorb_row(
    library: &[u8],
    text: &[u8],
    work: &mut [u32],
    t: usize,
    m: Mode,
    visible: bool,
    drop: bool,
    s: u32,
    k: u32,
    d: u32,
    n: u32,
    o: u32,
) -> u32
    requires { TurnRoom (length work.old) t k d n o }
    ensures { Turned (joint library.now text.now) (part work.old 0 t) work.old m visible drop s k d n o result work.new }
{
    let row = read_row(work, s, k);
    if is_taken(library, text, &work[0..t], drop, m, row) {
        let place = o as usize + k as usize;
        return take_row(library, text, work, t, m, visible, row, d, n, place);
    }
    n
}

// The rows of the source at s into the table at d, which has nd rows, while it has less than `cap`: moved through the mode, noted from o on.
// The number of rows after.
pub fn absorb_within(
    library: &[u8],
    text: &[u8],
    work: &mut [u32],
    t: usize,
    m: Mode,
    visible: bool,
    drop: bool,
    s: u32,
    ns: u32,
    d: u32,
    nd: u32,
    o: u32,
    cap: u32,
) -> u32
    requires room_within { RoomWithin (length work.old) t m s ns d cap o }
    requires nd_le_cap { nd ≤ cap }
    ensures { AbsorbedWithin (joint library.now text.now) (part work.old 0 t) work.old m visible drop s ns d nd o cap result work.new }
{
    let mut n = nd;
    for k in 0..ns {
        if n < cap {
            n = absorb_row(library, text, work, t, m, visible, drop, s, k, d, n, o);
        } else {
            return n;
        }
    }
    n
}

// Every row of the source at s into the table at d, which has nd rows: moved through the mode, noted from o on. The number of rows after.
pub fn absorb_items(
    library: &[u8],
    text: &[u8],
    work: &mut [u32],
    t: usize,
    m: Mode,
    visible: bool,
    drop: bool,
    s: u32,
    ns: u32,
    d: u32,
    nd: u32,
    o: u32,
) -> u32
    requires { Room (length work.old) t m s ns d nd o }
    ensures { Absorbed (joint library.now text.now) (part work.old 0 t) work.old m visible drop s ns d nd o result work.new }
{
    absorb_within(
        library,
        text,
        work,
        t,
        m,
        visible,
        drop,
        s,
        ns,
        d,
        nd,
        o,
        nd + ns,
    )
}
