// The listing reader as a struct that holds the lent listing together with its place. The work is `reader`'s, on a plain slice and a
// number; these functions are thin, and `line_from`, whose parameters are plain, is for all other callers.
#![tactic(auto)]

ghost use Rattle.std.specs.Prelude.{◌≡◌};
ghost use Rattle.reader.specs.Places.{LineRead};
ghost use Rattle.reader_held.specs.Handed.{Handed};

use reader::{Line, line_at, place_after};

#[derive(Clone, Copy)]
pub struct Reader<'a> {
    pub listing: &'a [u8],
    pub at: usize,
}

// A reader of the listing at a place.
pub fn new<'a>(listing: &'a [u8], at: usize) -> Reader<'a>
    ensures { (result.listing ≡ listing.entry) × (result.at ≡ at) }
{
    Reader { listing, at }
}

// What stands at the reader's place.
pub fn line<'a>(r: Reader<'a>) -> Line
    ensures { LineRead r.entry.listing.now r.entry.at result }
{
    line_at(r.listing, r.at)
}

// Hands over what stands at the reader's place, and moves past a line. Where there is none, the place stays.
pub fn next_line<'s, 'a>(r: &'s mut Reader<'a>) -> Line
    ensures { Handed r.old result r.new }
{
    let at = r.at;
    let line = line_at(r.listing, at);
    r.at = place_after(line, at);
    line
}

// What stands at a place of a listing.
pub fn line_from(listing: &[u8], at: usize) -> Line
    ensures { LineRead listing.now at result }
{
    line(new(listing, at))
}
