// Two names of two texts as one, compared element by element wherever they lie: an element is a run of digits, or one other byte.
#![tactic(auto)]

ghost use Rattle.std.specs.Prelude.{◌≡◌, ◌+◌, ◌<◌, ◌≤◌, length, take, drop};
ghost use Rattle.std.specs.Ordering.{ordering_index};
ghost use Rattle.text_spelling.specs.Word.{name_of};
ghost use Rattle.text_spelling.specs.Joint.{joint};
ghost use Rattle.text_runs.specs.Orders.{compared, bytes_compared};
ghost use Rattle.text_runs.specs.Runs.{digits_of, zeros_of, runs_compared, elements_compared, element_size};

use std::cmp::Ordering;
use text_spelling::{is_digit, name_byte, name_size};

// Past the digits from i on of the name w, which has `size` bytes.
fn digits_end(library: &[u8], text: &[u8], w: u32, size: usize, i: usize) -> usize
    requires { size ≡ length (name_of (joint library.now text.now) w) }
    ensures { result ≡ i + digits_of (drop i (name_of (joint library.now text.now) w)) }
{
    for e in i..size {
        if !is_digit(name_byte(library, text, w, e)) {
            return e;
        }
    }
    i.max(size)
}

// Past the zeros from i on.
fn zeros_end(library: &[u8], text: &[u8], w: u32, size: usize, i: usize) -> usize
    requires { size ≡ length (name_of (joint library.now text.now) w) }
    ensures { result ≡ i + zeros_of (drop i (name_of (joint library.now text.now) w)) }
{
    for e in i..size {
        if name_byte(library, text, w, e) != b'0' {
            return e;
        }
    }
    i.max(size)
}

// `left` bytes of the name a from i on, and as many of b from j on: which of them come first.
fn compare_digits(
    library: &[u8],
    text: &[u8],
    a: u32,
    i: usize,
    b: u32,
    j: usize,
    left: usize,
) -> Ordering
    requires left_in_bounds { i + left ≤ length (name_of (joint library.now text.now) a) }
    requires left_in_bounds_2 { j + left ≤ length (name_of (joint library.now text.now) b) }
    ensures { ordering_index result ≡ bytes_compared (take left (drop i (name_of (joint library.now text.now) a))) (take left (drop j (name_of (joint library.now text.now) b))) }
{
    for k in 0..left {
        let p = name_byte(library, text, a, i + k);
        let q = name_byte(library, text, b, j + k);
        if p != q {
            return p.cmp(&q);
        }
    }
    Ordering::Equal
}

// The runs of digits from i on, in a name of n bytes and one of m: by their sizes without leading zeros, then byte by byte, then by their zeros.
fn compare_runs(
    library: &[u8],
    text: &[u8],
    a: u32,
    n: usize,
    b: u32,
    m: usize,
    i: usize,
) -> Ordering
    requires n_value { n ≡ length (name_of (joint library.now text.now) a) }
    requires m_value { m ≡ length (name_of (joint library.now text.now) b) }
    requires i_le_n { i ≤ n }
    requires i_le_m { i ≤ m }
    ensures { ordering_index result ≡ runs_compared (drop i (name_of (joint library.now text.now) a)) (drop i (name_of (joint library.now text.now) b)) }
{
    let x = zeros_end(library, text, a, n, i);
    let y = zeros_end(library, text, b, m, i);
    let j = digits_end(library, text, a, n, i) - x;
    let k = digits_end(library, text, b, m, i) - y;
    if j != k {
        return j.cmp(&k);
    }
    compare_digits(library, text, a, x, b, y, j).then(x.cmp(&y))
}

// The elements at i of a name of n bytes and one of m: which of them comes first.
fn compare_elements(
    library: &[u8],
    text: &[u8],
    a: u32,
    n: usize,
    b: u32,
    m: usize,
    i: usize,
) -> Ordering
    requires n_value { n ≡ length (name_of (joint library.now text.now) a) }
    requires m_value { m ≡ length (name_of (joint library.now text.now) b) }
    requires i_lt_n { i < n }
    requires i_lt_m { i < m }
    ensures { ordering_index result ≡ elements_compared (drop i (name_of (joint library.now text.now) a)) (drop i (name_of (joint library.now text.now) b)) }
{
    let p = name_byte(library, text, a, i);
    let q = name_byte(library, text, b, i);
    if is_digit(p) {
        if is_digit(q) {
            return compare_runs(library, text, a, n, b, m, i);
        }
        return Ordering::Less;
    }
    if is_digit(q) {
        return Ordering::Greater;
    }
    p.cmp(&q)
}

// Past the element at i of the name w, which has `size` bytes.
fn element_end(library: &[u8], text: &[u8], w: u32, size: usize, i: usize) -> usize
    requires size_value { size ≡ length (name_of (joint library.now text.now) w) }
    requires i_lt_size { i < size }
    ensures { result ≡ i + element_size (drop i (name_of (joint library.now text.now) w)) }
{
    let e = digits_end(library, text, w, size, i);
    if e == i {
        return i + 1;
    }
    e
}

// Two names element by element: which of them comes first, `Equal` if they are the same.
pub fn compare_across(library: &[u8], text: &[u8], a: u32, b: u32) -> Ordering
    ensures { ordering_index result ≡ compared (name_of (joint library.now text.now) a) (name_of (joint library.now text.now) b) }
{
    let n = name_size(library, text, a);
    let m = name_size(library, text, b);
    let mut i = 0;
    // a while: each turn goes on behind the element of the turn before it
    while i < n {
        if m <= i {
            return Ordering::Greater;
        }
        let c = compare_elements(library, text, a, n, b, m, i);
        if c.is_ne() {
            return c;
        }
        i = element_end(library, text, a, n, i);
    }
    if i < m {
        return Ordering::Less;
    }
    Ordering::Equal
}
