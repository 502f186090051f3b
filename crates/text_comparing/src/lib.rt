// Names compared on slices as far as is seen at once, that is unless a run of digits has a zero in front.
#![tactic(auto)]

ghost use Rattle.std.specs.Prelude.{◌≡◌, true, ◌+◌, ◌<◌, ltb, length, get_or, drop};
ghost use Rattle.std.specs.Ordering.{ordering_index};
ghost use Rattle.meaning.specs.Names.{is_digit};
ghost use Rattle.text_runs.specs.Runs.{digits_of, by_size, plainly_compared, has_zeros, plain_size, Seen, Decides};
ghost use Rattle.text_runs.specs.Codes.{seen_index, decided_index};

use std::cmp::Ordering;
use text_spelling::{byte_at, is_digit};
use text_words::run_end;

// Past the bytes from `at` on that two names have in common and that are no digits.
fn plain_end(a: &[u8], b: &[u8], at: usize) -> usize
    ensures { result ≡ at + plain_size (drop at a.now) (drop at b.now) }
{
    for i in at..a.len() {
        if b.len() <= i {
            return i;
        }
        if a[i] != b[i] {
            return i;
        }
        if is_digit(a[i]) {
            return i;
        }
    }
    at.max(a.len())
}

// Past the digits from `at` on.
fn digits_end(text: &[u8], at: usize) -> usize
    ensures { result ≡ at + digits_of (drop at text.now) }
{
    run_end(text, at, |b| is_digit(b))
}

// Is there a digit at i?
fn digit_at(text: &[u8], i: usize) -> bool
    ensures { result ≡ ltb 0 (digits_of (drop i text.now)) }
{
    if i < text.len() {
        return is_digit(text[i]);
    }
    false
}

// Has the run of digits at i a zero in front of another digit?
fn has_zeros(text: &[u8], i: usize) -> bool
    requires { i < length text.now }
    ensures { result ≡ has_zeros (drop i text.now) }
{
    if text[i] == b'0' {
        return digit_at(text, i + 1);
    }
    false
}

// Which of the runs of digits from `at` on is shorter, else `level`.
fn compare_sizes(a: &[u8], b: &[u8], at: usize, level: Ordering) -> Ordering
    ensures { ordering_index result ≡ by_size (digits_of (drop at a.now)) (digits_of (drop at b.now)) (ordering_index level) }
{
    let mut i = at;
    // a while: it ends where a's run does
    while digit_at(a, i) {
        if !digit_at(b, i) {
            return Ordering::Greater;
        }
        i += 1;
    }
    if digit_at(b, i) {
        return Ordering::Less;
    }
    level
}

// The runs of digits from `at` on, by their sizes and then byte by byte: the first byte in which they differ counts if none goes on alone.
fn compare_digits(a: &[u8], b: &[u8], at: usize) -> Ordering
    ensures { ordering_index result ≡ plainly_compared (drop at a.now) (drop at b.now) }
{
    let mut i = at;
    // a while: it ends where a's run does
    while digit_at(a, i) {
        if !digit_at(b, i) {
            return Ordering::Greater;
        }
        let p = byte_at(a, i);
        let q = byte_at(b, i);
        if p != q {
            return compare_sizes(a, b, i + 1, p.cmp(&q));
        }
        i += 1;
    }
    if digit_at(b, i) {
        return Ordering::Less;
    }
    Ordering::Equal
}

// Which of the runs of digits from i on comes first, `Equal` if they are the same; none where zeros must be looked at.
fn compare_numbers(a: &[u8], b: &[u8], i: usize) -> Option<Ordering>
    requires i_in_bounds { i < length a.now }
    requires i_in_bounds_2 { i < length b.now }
    requires i_value { is_digit (get_or a.now i 0) ≡ true }
    requires i_value_2 { is_digit (get_or b.now i 0) ≡ true }
    ensures { Decides (drop i a.now) (drop i b.now) (decided_index result) }
{
    if has_zeros(a, i) {
        return None;
    }
    if has_zeros(b, i) {
        return None;
    }
    Some(compare_digits(a, b, i))
}

// Which of the elements at i comes first, `Equal` if they are the same run; none where zeros must be looked at.
fn compare_first(a: &[u8], b: &[u8], i: usize) -> Option<Ordering>
    requires i_in_bounds { i < length a.now }
    requires i_in_bounds_2 { i < length b.now }
    ensures { Decides (drop i a.now) (drop i b.now) (decided_index result) }
{
    let p = a[i];
    let q = b[i];
    if is_digit(p) {
        if is_digit(q) {
            return compare_numbers(a, b, i);
        }
        return Some(Ordering::Less);
    }
    if is_digit(q) {
        return Some(Ordering::Greater);
    }
    if p < q {
        return Some(Ordering::Less);
    }
    if q < p {
        return Some(Ordering::Greater);
    }
    None
}

// Which of two names comes first, or `Equal` if they are the same, where no run with a zero in front must be looked at.
pub fn compare_names(a: &[u8], b: &[u8]) -> Option<Ordering>
    ensures { Seen a.now b.now (seen_index result) }
{
    let mut i = 0;
    // a while: each turn goes on behind the run of digits of the turn before it
    while i < a.len() {
        let j = plain_end(a, b, i);
        if b.len() <= j {
            if j < a.len() {
                return Some(Ordering::Greater);
            }
            return Some(Ordering::Equal);
        }
        if a.len() <= j {
            return Some(Ordering::Less);
        }
        let order = compare_first(a, b, j)?;
        if order.is_ne() {
            return Some(order);
        }
        i = digits_end(a, j);
    }
    if b.len() <= i {
        return Some(Ordering::Equal);
    }
    Some(Ordering::Less)
}
