// Single bytes, layout, comments and runs of signs: what a token is found by.
#![tactic(auto)]

ghost use Rattle.std.specs.Prelude.{◌≡◌, ◌-◌, ltb, length, get_or, drop};
ghost use Rattle.meaning.specs.Lists.{pick};
ghost use Rattle.meaning.specs.Tokens.{is_in, is_layout, is_newline, is_mark, is_symbol};
ghost use Rattle.meaning.specs.Tokens.{run_end, at_layout, at_equals, at_symbol, at_dashes, in_comment, comment_sign};
ghost use Rattle.meaning.specs.Tokens.{opens, comment_end, skip};
ghost use Rattle.text_marks.specs.Hyphens.{hyphen_before};

use text_names::{byte_at, run_end};

// Is b among the bytes of set?
pub fn contains(set: &[u8], b: u8) -> bool
    ensures { result ≡ is_in set.now b }
{
    for x in set {
        if b == *x {
            return true;
        }
    }
    false
}

fn is_layout(b: u8) -> bool
    ensures { result ≡ is_layout b }
{
    contains(b" \t\n\x0c\r", b)
}

fn is_newline(b: u8) -> bool
    ensures { result ≡ is_newline b }
{
    contains(b"\n\r", b)
}

pub fn is_mark(b: u8) -> bool
    ensures { result ≡ is_mark b }
{
    contains(b":,#()[]{}_", b)
}

// Is b one of the signs that operators are made of?
pub fn is_symbol(b: u8) -> bool
    ensures { result ≡ is_symbol b }
{
    contains(b"+-*/&|!@%?~", b)
}

// Past the layout at `at`.
fn layout_end(text: &[u8], at: usize) -> usize
    ensures { result ≡ run_end at_layout text.now at }
{
    run_end(text, at, |b| is_layout(b))
}

// Past the = at `at`.
pub fn equals_end(text: &[u8], at: usize) -> usize
    ensures { result ≡ run_end at_equals text.now at }
{
    run_end(text, at, |b| b == b'=')
}

// Past the symbols at `at`.
pub fn symbols_end(text: &[u8], at: usize) -> usize
    ensures { result ≡ run_end at_symbol text.now at }
{
    run_end(text, at, |b| is_symbol(b))
}

// Does a hyphen stand at i, before b?
pub fn hyphen_before(text: &[u8], i: usize, b: u8) -> bool
    ensures { result ≡ hyphen_before text.now i b }
{
    if i < text.len() {
        if text[i] == b'-' {
            return byte_at(text, i + 1) == b;
        }
    }
    false
}

// Do two hyphens stand at i?
fn at_dashes(text: &[u8], i: usize) -> bool
    ensures { result ≡ at_dashes (drop i text.now) }
{
    hyphen_before(text, i, b'-')
}

// Does a comment go on at i?
fn in_comment(text: &[u8], i: usize) -> bool
    ensures { result ≡ in_comment (drop i text.now) }
{
    if is_newline(byte_at(text, i)) {
        return false;
    }
    if at_dashes(text, i) {
        return false;
    }
    true
}

// Past the inside of a comment.
fn inside_end(text: &[u8], at: usize) -> usize
    ensures { result ≡ run_end in_comment text.now at }
{
    for i in at..text.len() {
        if !in_comment(text, i) {
            return i;
        }
    }
    at.max(text.len())
}

// The byte before i, and 0 before byte 0: no layout stands there.
fn byte_before(text: &[u8], i: usize) -> u8
    ensures { result ≡ pick (ltb 0 i) (get_or text.now (i - 1) 0) 0 }
{
    if 0 < i { byte_at(text, i - 1) } else { 0 }
}

// Does a comment open at i?
fn opens(text: &[u8], i: usize) -> bool
    ensures { result ≡ opens text.now i }
{
    if is_layout(byte_before(text, i)) {
        return at_dashes(text, i);
    }
    false
}

// Past the comment at i, or i.
fn comment_end(text: &[u8], i: usize) -> usize
    ensures { result ≡ comment_end text.now i }
{
    if opens(text, i) {
        let k = inside_end(text, i + 2);
        if k < text.len() {
            if is_newline(text[k]) {
                return k;
            }
            return k + 2;
        }
    }
    i
}

// Past layout and comments from `at` on.
pub fn skip(text: &[u8], at: usize) -> usize
    ensures { result ≡ skip text.now (length text.now) at }
{
    let mut i = at;
    // the turns left are the definition's
    for left in (0..text.len()).rev() {
        let j = layout_end(text, i);
        let k = comment_end(text, j);
        if k == j {
            return j;
        }
        i = k;
    }
    i
}

// Are two hyphens at i a comment's sign, so that no operator begins there?
pub fn comment_sign(text: &[u8], i: usize) -> bool
    ensures { result ≡ comment_sign text.now i }
{
    if at_dashes(text, i) {
        if i == 0 {
            return true;
        }
        let before = byte_at(text, i - 1);
        if is_layout(before) {
            return true;
        }
        return before == b'-';
    }
    false
}
