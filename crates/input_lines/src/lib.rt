// How an input is framed: its first line, which names the asked module, and the line behind it that may say how long the library is.
#![tactic(auto)]

ghost use Rattle.std.specs.Prelude.{◌≡◌, ◌-◌, ◌≤◌, length};
ghost use Rattle.meaning.specs.Names.{same};
ghost use Rattle.meaning.specs.Tokens.{run_end};
ghost use Rattle.meaning.specs.Answer.{in_line, request_end, has_request, library_request_end, said_by, has_library_line};
ghost use Rattle.meaning.specs.Written.{decimal};
ghost use Rattle.input_lines.specs.Framed.{Framed};

use meaning::numbers;

// Where the line that goes on at `start` ends: at its LF, or at the end of the input.
pub fn line_end(input: &[u8], start: usize) -> usize
    ensures { result ≡ run_end in_line input.now start }
{
    for i in start..input.len() {
        if input[i] == b'\n' {
            return i;
        }
    }
    start.max(input.len())
}

// Does the input begin with a line `normalise=NAME`, whose NAME has at most 40 bytes? That line ends at e.
pub fn has_request(input: &[u8], e: usize) -> bool
    requires { e ≡ request_end input.now }
    ensures { result ≡ has_request input.now }
{
    if input.len() <= e {
        return false;
    }
    if 50 < e {
        return false;
    }
    text_names::same_bytes(&input[0..10], b"normalise=")
}

// ---- the library's line

// What a digit says.
fn digit(b: u8) -> usize
    ensures value { result ≡ b - 48 }
    ensures upper_bound { result ≤ 207 }
{
    usize::from(b.saturating_sub(48))
}

// What at most nine digits say.
fn said_by(written: &[u8]) -> usize
    requires { length written.now ≤ 9 }
    ensures { result ≡ said_by 0 written.now }
{
    let mut n: usize = 0;
    for b in written {
        n = n * 10 + digit(*b);
    }
    n
}

// Is n written so, without leading zeros?
fn is_decimal(written: &[u8], n: usize) -> bool
    ensures { result ≡ same written.now (decimal n) }
{
    let mut page = [0; 10];
    let size = list_pen::put_digits(&mut page, 0, 11, n, 10);
    text_names::same_bytes(written, &page[0..size])
}

// Does what follows the first line begin with a line `library=N`? That line ends at e.
fn has_library_line(rest: &[u8], e: usize) -> bool
    requires { e ≡ library_request_end rest.now }
    ensures { result ≡ has_library_line rest.now }
{
    if rest.len() <= e {
        return false;
    }
    if 17 < e {
        return false;
    }
    if text_names::same_bytes(&rest[0..8], b"library=") {
        let n = said_by(&rest[8..e]);
        return is_decimal(&rest[8..e], n);
    }
    false
}

// What follows the first line: the customer's text alone, a library and that text behind it, or a library that is too long.
// An enum of its own: one match of three names is plainer than a Result of an Option.
#[derive(Clone, Copy)]
pub enum Framing {
    Alone,
    TooLong,
    Both { from: usize, to: usize },
}

// How what follows the first line is framed.
pub fn framed(rest: &[u8]) -> Framing
    ensures { Framed rest.now result }
{
    let e = line_end(rest, 8);
    if has_library_line(rest, e) {
        let size = said_by(&rest[8..e]);
        if numbers::TEXT_SIZE < size {
            return Framing::TooLong;
        }
        let from = e + 1;
        let to = from + size;
        if to <= rest.len() {
            return Framing::Both { from, to };
        }
        return Framing::Alone;
    }
    Framing::Alone
}
