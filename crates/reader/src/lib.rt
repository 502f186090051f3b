// The lines of a listing, read one at a time by a cursor that is passed by value, and the part of a listing that its visible lines fill.
#![tactic(auto)]

ghost use Rattle.std.specs.Prelude.{◌≡◌};
ghost use Rattle.meaning.specs.Tokens.{run_end};
ghost use Rattle.meaning.specs.Answer.{in_line};
ghost use Rattle.meaning.specs.Reader.{in_key};
ghost use Rattle.reader.specs.Places.{key_number, LineRead, place_after, step_at};
ghost use Rattle.reader.specs.Visible.{is_front, visible_end, front_part};

use text_tokens::number_in;

// A line by its places in the listing. The key goes from the place that was read to `mark`, where `=` stands, and the value from `value`
// to `end`, where LF stands; `next` is the place after the line. `number` is the key's, from 1 for `module` to 12 for `origin`.
#[derive(Clone, Copy)]
pub struct Places {
    pub number: usize,
    pub mark: usize,
    pub value: usize,
    pub end: usize,
    pub next: usize,
}

// What stands at a place: a line, the end of the listing, or no line (answer 21), with the place where the reader stays.
// An enum of its own: three ways are no Option, the end is no error, and users of this interface match these names.
#[derive(Clone, Copy)]
pub enum Line {
    Keyed(Places),
    End,
    Bad(usize),
}

// Where the line at `at` ends: at the next LF, or at the end of the listing.
fn line_end(listing: &[u8], at: usize) -> usize
    ensures { result ≡ run_end in_line listing.now at }
{
    for i in at..listing.len() {
        if listing[i] == b'\n' {
            return i;
        }
    }
    at.max(listing.len())
}

// Where the key at `at` ends: at the next LF or `=`, or at the end of the listing.
fn key_end(listing: &[u8], at: usize) -> usize
    ensures { result ≡ run_end in_key listing.now at }
{
    for i in at..listing.len() {
        if listing[i] == b'\n' {
            return i;
        }
        if listing[i] == b'=' {
            return i;
        }
    }
    at.max(listing.len())
}

// The number of a key in the listing's order, from 1 on; 0 if it is none.
fn key_number(key: &[u8]) -> usize
    ensures { result ≡ key_number key.now }
{
    number_in(
        b"module sort function parameter parameter-sort parameter-function hidden-sort hidden-function variable equation end origin",
        key,
    )
}

// What stands at the place `at` of the listing.
pub fn line_at(listing: &[u8], at: usize) -> Line
    ensures { LineRead listing.now at result }
{
    if listing.len() < at {
        return Line::Bad(at);
    }
    if at == listing.len() {
        return Line::End;
    }
    let e = line_end(listing, at);
    if e < listing.len() {
        let k = key_end(listing, at);
        if k < e {
            let n = key_number(&listing[at..k]);
            if n == 0 {
                return Line::Bad(at);
            }
            return Line::Keyed(Places {
                number: n,
                mark: k,
                value: k + 1,
                end: e,
                next: e + 1,
            });
        }
    }
    Line::Bad(at)
}

// The place after what was read at `at`: after a line the next one's, else the same.
pub fn place_after(line: Line, at: usize) -> usize
    ensures { result ≡ place_after line at }
{
    match line {
        Line::Keyed(p) => p.next,
        Line::End => at,
        Line::Bad(place) => place,
    }
}

// A place in a listing that the caller keeps.
#[derive(Clone, Copy)]
pub struct Cursor {
    pub at: usize,
}

// What was read, and the cursor after it.
#[derive(Clone, Copy)]
pub struct Step {
    pub line: Line,
    pub cursor: Cursor,
}

// Reads at the cursor, which stays where no line was read.
pub fn next_line(listing: &[u8], cursor: Cursor) -> Step
    ensures { result ≡ step_at listing.now cursor.at }
{
    let at = cursor.at;
    let line = line_at(listing, at);
    let next = place_after(line, at);
    Step {
        line: line,
        cursor: Cursor { at: next },
    }
}

// Does what was read belong to the front of the listing, where its visible lines stand? Those from `hidden-sort`, 7, to `end`, 11, do not.
fn is_front(line: Line) -> bool
    ensures { result ≡ is_front line }
{
    match line {
        Line::Keyed(p) => {
            let n = p.number;
            if n < 7 {
                return true;
            }
            11 < n
        }
        Line::End => false,
        Line::Bad(_) => false,
    }
}

// Where the visible lines of the listing end. A line is never empty, so the listing has fewer lines than bytes.
pub fn visible_end(listing: &[u8]) -> usize
    ensures { result ≡ visible_end listing.now }
{
    let mut at = 0;
    for _ in 0..listing.len() {
        let line = line_at(listing, at);
        if is_front(line) {
            at = place_after(line, at);
        } else {
            return at;
        }
    }
    at
}

// The part of the listing that its visible lines fill.
pub fn visible_part(listing: &[u8]) -> &[u8]
    ensures { result.now ≡ front_part listing.now }
{
    let e = visible_end(listing);
    &listing[0..e]
}
