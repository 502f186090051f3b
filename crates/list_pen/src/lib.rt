// Texts, names and numbers written to lent output, each byte as `list_window` writes it; its `put` is handed on.
#![tactic(auto)]

ghost use Rattle.std.specs.Prelude.{◌≡◌};
ghost use Rattle.meaning.specs.Written.{digits, decimal, numbered};
ghost use Rattle.text_names.specs.Word.{token_of, name_of};
ghost use Rattle.text_names.specs.Joint.{joint};
ghost use Rattle.list_pen.specs.Pen.{pen, written, part, first_power};

pub use list_window::put;
use text_names::joint::{leading, token_room, trailing};

// The text's bytes from `start` on, `size` of them or as many as there are.
pub fn put_bytes(
    out: &mut [u8],
    at: usize,
    limit: usize,
    text: &[u8],
    start: usize,
    size: usize,
) -> usize
    ensures { pen result out.new ≡ written limit (part text.now start size) (pen at out.old) }
{
    let first = start.min(text.len());
    let end = first + size.min(text.len() - first);
    let mut to = at;
    for byte in &text[first..end] {
        to = put(out, to, limit, *byte);
    }
    to
}

// A whole text.
pub fn put_text(out: &mut [u8], at: usize, limit: usize, text: &[u8]) -> usize
    ensures { pen result out.new ≡ written limit text.now (pen at out.old) }
{
    put_bytes(out, at, limit, text, 0, text.len())
}

// The token of the name w of the text and the library behind it; a word that reaches over the seam is written from both.
fn put_token(out: &mut [u8], at: usize, limit: usize, library: &[u8], text: &[u8], w: u32) -> usize
    ensures { pen result out.new ≡ written limit (token_of (joint library.now text.now) w) (pen at out.old) }
{
    let n = text.len();
    let start = (w / 256) as usize;
    let size = token_room(w);
    if start < n {
        let there = put_bytes(out, at, limit, text, start, size);
        let left = n - start;
        if left < size {
            return put_bytes(out, there, limit, library, 0, size - left);
        }
        return there;
    }
    put_bytes(out, at, limit, library, start - n, size)
}

// The name w, with the underlines of an operator.
pub fn put_name(
    out: &mut [u8],
    at: usize,
    limit: usize,
    library: &[u8],
    text: &[u8],
    w: u32,
) -> usize
    ensures { pen result out.new ≡ written limit (name_of (joint library.now text.now) w) (pen at out.old) }
{
    let a = put_bytes(out, at, limit, b"_", 0, leading(w));
    let b = put_token(out, a, limit, library, text, w);
    put_bytes(out, b, limit, b"_", 0, trailing(w))
}

// The power of ten of the first digit that is written of n, where at most so many stand behind it.
fn first_power(n: usize, behind: usize) -> usize
    ensures { result ≡ first_power behind n }
{
    let mut power = 1;
    for _ in 0..behind {
        // ten times the power may not fit, so n is divided
        if n / 10 < power {
            return power;
        }
        power *= 10;
    }
    power
}

// The digits of n, `size` of them at most. By hand, since each byte goes through the window, which std's formatting knows nothing of.
pub fn put_digits(out: &mut [u8], at: usize, limit: usize, n: usize, size: usize) -> usize
    ensures { pen result out.new ≡ written limit (digits size n) (pen at out.old) }
{
    if size == 0 {
        return at;
    }
    let mut to = at;
    let mut power = first_power(n, size - 1);
    // a while: each turn divides the power
    while 0 < power {
        to = put(out, to, limit, (48 + n / power % 10) as u8);
        power /= 10;
    }
    to
}

// A number in decimal.
pub fn put_number(out: &mut [u8], at: usize, limit: usize, n: u32) -> usize
    ensures { pen result out.new ≡ written limit (decimal n) (pen at out.old) }
{
    put_digits(out, at, limit, n as usize, 10)
}

// The number of a hidden item.
pub fn put_numbered(out: &mut [u8], at: usize, limit: usize, n: u32) -> usize
    ensures { pen result out.new ≡ written limit (numbered n) (pen at out.old) }
{
    let a = put(out, at, limit, b'{');
    let b = put_number(out, a, limit, n);
    put(out, b, limit, b'}')
}
