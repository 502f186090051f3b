// A module's text fetched, and a listing's lines, as C calls them, on slices of bytes and numbers only: each slice is a pointer and a length.
// None of it needs the evaluation, so it stands apart from `asf_c`, and the library has the functions of both.
#![tactic(auto)]

ghost use Rattle.std.specs.Prelude.{◌≡◌};
ghost use Rattle.meaning.specs.Texts.{two_texts, fetched};
ghost use Rattle.reader.specs.Places.{places_at};
ghost use Rattle.reader.specs.Visible.{visible_end};
ghost use Rattle.values_c.specs.Values.{laid};
ghost use Rattle.parts_c.specs.Handed.{valued, line_values, handed_line, handed_part};

use reader::{Line, Places, line_at, visible_end};
use text_fetching::find;
use values_c::{bit, put_three, put_value};

// The places of a line.
fn put_places(values: &mut [usize], p: Places)
    ensures { values.new ≡ laid 0 (line_values p) values.old }
{
    put_three(values, 0, p.number, p.mark, p.value);
    put_value(values, 3, p.end);
    put_value(values, 4, p.next);
}

// The part of a text that declares a module: its mark, its place and its length, and 0; or 1, where there is none.
#[unsafe(no_mangle)]
pub extern "C" fn asf_fetch(name: &[u8], library: &[u8], text: &[u8], values: &mut [usize]) -> u32
    ensures { valued result values.new ≡ handed_part (fetched (two_texts library.now text.now) name.now) values.old }
{
    let p = find(library, text, name);
    let marked = p.marked;
    let start = p.start;
    let end = p.end;
    if end == 0 {
        return 1;
    }
    put_three(values, 0, bit(marked), start, end - start);
    0
}

// Reads the line at a place of a listing: 0 with the line's places, 1 at the end, 21 where no line stands.
#[unsafe(no_mangle)]
pub extern "C" fn asf_line(listing: &[u8], place: usize, values: &mut [usize]) -> u32
    ensures { valued result values.new ≡ handed_line (places_at listing.now place) values.old }
{
    match line_at(listing, place) {
        Line::Keyed(p) => {
            put_places(values, p);
            0
        }
        Line::End => 1,
        Line::Bad(_) => 21,
    }
}

// How long the visible part of a listing is, which stands in front.
#[unsafe(no_mangle)]
pub extern "C" fn asf_visible(listing: &[u8]) -> usize
    ensures { result ≡ visible_end listing.now }
{
    visible_end(listing)
}
