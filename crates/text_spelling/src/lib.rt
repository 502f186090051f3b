// The bytes of a name, and whether two are spelled alike: of one text, and of two as one, the customer's text with the library behind it. A name is one
// word: the place where its token starts times 256, its form (plain, or a prefix or infix operator) times 64, and its token's length.
#![tactic(auto)]

ghost use Rattle.std.specs.Prelude.{◌≡◌, ◌+◌, length, get_or};
ghost use Rattle.meaning.specs.Names.{same, is_digit, is_operator, is_infix};
ghost use Rattle.text_spelling.specs.Word.{leading, trailing, token_of, name_of};
ghost use Rattle.text_spelling.specs.Joint.{joint};

use text_bytes::byte_in;
pub use text_bytes::{byte_at, lesser, token_room};

// Is b a digit?
pub fn is_digit(b: u8) -> bool
    ensures { result ≡ is_digit b }
{
    b.is_ascii_digit()
}

// ---- the bytes of a name

// How many underlines stand before the token of the name w.
pub fn leading(w: u32) -> usize
    ensures { result ≡ leading w }
{
    if w / 64 % 4 == 2 { 1 } else { 0 }
}

// How many stand behind it.
pub fn trailing(w: u32) -> usize
    ensures { result ≡ trailing w }
{
    if w / 64 % 4 == 1 { 1 } else { leading(w) }
}

// How many bytes the token of the name w has.
fn token_size(library: &[u8], text: &[u8], w: u32) -> usize
    ensures { result ≡ length (token_of (joint library.now text.now) w) }
{
    let n = text.len();
    let m = library.len();
    let s = lesser((w / 256) as usize, n + m);
    lesser(token_room(w), n + m - s)
}

// How many bytes the name w has.
pub fn name_size(library: &[u8], text: &[u8], w: u32) -> usize
    ensures { result ≡ length (name_of (joint library.now text.now) w) }
{
    leading(w) + token_size(library, text, w) + trailing(w)
}

// The byte at i of the name w, and 0 past its end: the one function that tells the bytes of a name.
pub fn name_byte(library: &[u8], text: &[u8], w: u32, i: usize) -> u8
    ensures { result ≡ get_or (name_of (joint library.now text.now) w) i 0 }
{
    let lead = leading(w);
    if i < lead {
        return b'_';
    }
    let size = token_size(library, text, w);
    if i < lead + size {
        return byte_in(library, text, (w / 256) as usize + (i - lead));
    }
    if i < lead + size + trailing(w) {
        return b'_';
    }
    0
}

// ---- the same bytes

// Have a and b the same bytes?
pub fn same_bytes(a: &[u8], b: &[u8]) -> bool
    ensures { result ≡ same a.now b.now }
{
    // a loop: as `==` it makes `text_names::joint::same_name` too large to be compiled into its callers, and texts of many names take half as much again
    if a.len() != b.len() {
        return false;
    }
    for i in 0..a.len() {
        if a[i] != b[i] {
            return false;
        }
    }
    true
}

// Is a, of one text and the one behind it, the name that b is of two others?
pub fn same_wherever(
    library: &[u8],
    text: &[u8],
    a: u32,
    behind: &[u8],
    other: &[u8],
    b: u32,
) -> bool
    ensures { result ≡ same (name_of (joint library.now text.now) a) (name_of (joint behind.now other.now) b) }
{
    let n = name_size(library, text, a);
    if n != name_size(behind, other, b) {
        return false;
    }
    for i in 0..n {
        let p = name_byte(library, text, a, i);
        let q = name_byte(behind, other, b, i);
        if p != q {
            return false;
        }
    }
    true
}

// Has the name a the bytes of `asked`?
pub fn is_called(library: &[u8], text: &[u8], a: u32, asked: &[u8]) -> bool
    ensures { result ≡ same (name_of (joint library.now text.now) a) asked.now }
{
    let n = name_size(library, text, a);
    if n != asked.len() {
        return false;
    }
    for i in 0..n {
        let p = name_byte(library, text, a, i);
        if p != asked[i] {
            return false;
        }
    }
    true
}

// ---- operators

// Is w an operator's name: does it hold an underline?
pub fn is_operator(library: &[u8], text: &[u8], w: u32) -> bool
    ensures { result ≡ is_operator (name_of (joint library.now text.now) w) }
{
    let n = name_size(library, text, w);
    for i in 0..n {
        if name_byte(library, text, w, i) == b'_' {
            return true;
        }
    }
    false
}

// Does it begin with one, as an infix operator's does?
pub fn is_infix(library: &[u8], text: &[u8], w: u32) -> bool
    ensures { result ≡ is_infix (name_of (joint library.now text.now) w) }
{
    name_byte(library, text, w, 0) == b'_'
}
