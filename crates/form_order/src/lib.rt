// Tables of names put in order: the names stay where they are, and a table beside them holds their numbers in the order of the names.
// Name i of a table stands at place b + i * s of the working memory.
#![tactic(auto)]

ghost use Rattle.std.specs.Prelude.{◌≡◌, ◌+◌, ◌-◌, ◌*◌, ◌/◌, ◌≤◌, ◌<◌, length, get_or};
ghost use Rattle.meaning.specs.Names.{not_after};
ghost use Rattle.text_names.specs.Word.{name_of};
ghost use Rattle.text_names.specs.Joint.{joint};
ghost use Rattle.form_rows.specs.Rows.{row_size};
ghost use Rattle.form_order.specs.Order.{name_in, InOrder, Spot, Inserted, PutInOrder, NamesApart};

use form_rows::entries::word_at;
use text_names::joint::not_after;

// The word of name i.
pub fn name_in(w: &[u32], b: u32, s: u32, i: u32) -> u32
    requires { s ≤ row_size }
    ensures { result ≡ get_or w.now (b + i * s) 0 }
{
    word_at(w, b as usize + i as usize * s as usize)
}

// The number of the name that is i-th in order.
pub fn number_in(w: &[u32], p: u32, i: u32) -> u32
    ensures { result ≡ get_or w.now (p + i) 0 }
{
    word_at(w, p as usize + i as usize)
}

// The half way from lo to hi.
pub fn middle(lo: u32, hi: u32) -> u32
    requires { lo < hi }
    ensures value { result ≡ lo + (hi - lo) / 2 }
    ensures lower_bound { lo ≤ result }
    ensures upper_bound { result < hi }
{
    lo + (hi - lo) / 2
}

// Does the name that is i-th in order come not after x?
fn comes_before(
    library: &[u8],
    text: &[u8],
    w: &[u32],
    b: u32,
    s: u32,
    p: u32,
    i: u32,
    x: u32,
) -> bool
    requires { s ≤ row_size }
    ensures { result ≡ not_after (name_in (joint library.now text.now) w.now b s (get_or w.now (p + i) 0)) (name_of (joint library.now text.now) x) }
{
    let k = number_in(w, p, i);
    not_after(library, text, name_in(w, b, s, k), x)
}

// Where the name x belongs among the n names in order: behind all that are not after it.
fn find_place(library: &[u8], text: &[u8], w: &[u32], b: u32, s: u32, p: u32, n: u32, x: u32) -> u32
    requires s_le_row_size { s ≤ row_size }
    requires in_order { InOrder (joint library.now text.now) w.now b s p n }
    ensures { Spot (joint library.now text.now) w.now b s p n x result }
{
    let mut lo = 0;
    let mut hi = n;
    // a while: the search halves what is left, from either end
    while lo < hi {
        let mid = middle(lo, hi);
        if comes_before(library, text, w, b, s, p, mid, x) {
            lo = mid + 1;
        } else {
            hi = mid;
        }
    }
    lo
}

// The words from a up to e move up by one, and v is put at a.
pub fn insert_word(w: &mut [u32], a: usize, e: usize, v: u32)
    requires a_le_e { a ≤ e }
    requires e_in_bounds { e < length w.old }
    ensures { Inserted a e v w.old w.new }
{
    for k in (a..e).rev() {
        w[k + 1] = w[k];
    }
    w[a] = v;
}

// Name r put in its place among the r names before it.
fn order_name(library: &[u8], text: &[u8], work: &mut [u32], b: u32, s: u32, p: u32, r: u32)
    requires s_le_row_size { s ≤ row_size }
    requires r_in_bounds { p + r < length work.old }
    requires names_apart { NamesApart b s p (r + 1) }
    requires in_order { InOrder (joint library.now text.now) work.old b s p r }
    ensures { PutInOrder (joint library.now text.now) work.old work.new b s p (r + 1) }
{
    let x = name_in(work, b, s, r);
    let k = find_place(library, text, work, b, s, p, r, x);
    let a = p as usize + k as usize;
    let e = p as usize + r as usize;
    insert_word(work, a, e, r);
}

// The numbers of n names in order, from p on.
pub fn order_names(library: &[u8], text: &[u8], work: &mut [u32], b: u32, s: u32, n: u32, p: u32)
    requires s_le_row_size { s ≤ row_size }
    requires n_in_bounds { p + n ≤ length work.old }
    requires names_apart { NamesApart b s p n }
    ensures { PutInOrder (joint library.now text.now) work.old work.new b s p n }
{
    for r in 0..n {
        order_name(library, text, work, b, s, p, r);
    }
}
