// An answer written as lines, as `asfnorm` prints it.
#![tactic(auto)]

ghost use Rattle.std.specs.Prelude.{◌≡◌, take};
ghost use Rattle.meaning.specs.Names.{bytes};
ghost use Rattle.meaning.specs.Written.{decimal};
ghost use Rattle.list_pen.specs.Pen.{pen, written};
ghost use Rattle.answer_lines.specs.Lines.{line_of, spelled, actual_text, marked_place, refusal_text, answer_text};

use answer::{Answer, Name};
use list_pen::{put_bytes, put_digits, put_text};
use meaning::numbers;

// A line whose value is a number.
fn put_number(page: &mut [u8], at: usize, limit: usize, key: &[u8], n: usize) -> usize
    ensures { pen result page.new ≡ written limit (line_of key.now (decimal n)) (pen at page.old) }
{
    let a = put_text(page, at, limit, key);
    let b = put_text(page, a, limit, b"=");
    let c = put_digits(page, b, limit, n, 10);
    put_text(page, c, limit, b"\n")
}

// A line whose value is the front of these bytes.
fn put_front(
    page: &mut [u8],
    at: usize,
    limit: usize,
    key: &[u8],
    bytes: &[u8],
    size: usize,
) -> usize
    ensures { pen result page.new ≡ written limit (line_of key.now (take size bytes.now)) (pen at page.old) }
{
    let a = put_text(page, at, limit, key);
    let b = put_text(page, a, limit, b"=");
    let c = put_bytes(page, b, limit, bytes, 0, size);
    put_text(page, c, limit, b"\n")
}

// A line whose value is a name.
fn put_name(page: &mut [u8], at: usize, limit: usize, key: &[u8], name: Name) -> usize
    ensures { pen result page.new ≡ written limit (line_of key.now (spelled name)) (pen at page.old) }
{
    let bytes = name.bytes;
    let size = name.length;
    put_front(page, at, limit, key, &bytes, size)
}

// The line of an actual name, which is told of a binding's mistakes alone.
fn put_actual(page: &mut [u8], at: usize, limit: usize, number: u32, actual: Name) -> usize
    ensures { pen result page.new ≡ written limit (actual_text number actual) (pen at page.old) }
{
    if number < numbers::FORMAL_ABSENT {
        return at;
    }
    if numbers::FORMAL_UNPAIRED < number {
        return at;
    }
    put_name(page, at, limit, b"actual", actual)
}

// The line of a place; one in the library is told with a mark for it.
fn put_place(page: &mut [u8], at: usize, limit: usize, place: usize, in_library: bool) -> usize
    ensures { pen result page.new ≡ written limit (line_of (bytes "at") (marked_place in_library place)) (pen at page.old) }
{
    if in_library {
        let a = put_text(page, at, limit, b"at=library:");
        let b = put_digits(page, a, limit, place, 10);
        return put_text(page, b, limit, b"\n");
    }
    put_number(page, at, limit, b"at", place)
}

// The lines of a refusal that follow its number and count.
fn put_refusal(page: &mut [u8], at: usize, limit: usize, r: Answer) -> usize
    ensures { pen result page.new ≡ written limit (refusal_text r) (pen at page.old) }
{
    let module = r.evaluating;
    let culprit = r.culprit;
    let actual = r.actual;
    let number = r.number;
    let place = r.at;
    let in_library = r.in_library;
    let a = put_name(page, at, limit, b"module", module);
    let b = put_name(page, a, limit, b"name", culprit);
    let c = put_actual(page, b, limit, number, actual);
    put_place(page, c, limit, place, in_library)
}

// The answer, with the listing that stands at the front of `listing` if the number is 0.
pub fn put_answer(page: &mut [u8], limit: usize, listing: &[u8], r: Answer) -> usize
    ensures { pen result page.new ≡ written limit (answer_text r listing.now) (pen 0 page.old) }
{
    let number = r.number;
    let modules = r.modules;
    let size = r.listing;
    let a = put_number(page, 0, limit, b"answer", number as usize);
    let b = put_number(page, a, limit, b"modules", modules as usize);
    if number == numbers::ACCEPTED {
        return put_bytes(page, b, limit, listing, 0, size);
    }
    put_refusal(page, b, limit, r)
}
