// Names of two texts as one, the customer's text with the library behind it: a place is one of both together, and so is a name's word.
// Most names lie in the text, which therefore comes first: their words are as they were read, and are compared there.
ghost use Rattle.std.specs.Prelude.{◌≡◌};
ghost use Rattle.std.specs.Ordering.{ordering_index};
ghost use Rattle.meaning.specs.Names.{same, not_after};
ghost use Rattle.text_names.specs.Word.{name_of};
ghost use Rattle.text_runs.specs.Orders.{compared};
ghost use Rattle.text_names.specs.Joint.{joint};

use std::cmp::Ordering;
use text_comparing::compare_names;
use text_elements::compare_across;
use text_places::same_across;
use text_seams::{both_behind, have_room};
pub use text_spelling::{is_called, is_infix, is_operator, leading, token_room, trailing};
use text_spelling::{same_bytes, same_wherever};

// Names of the library are looked at there, and all others byte by byte.
fn same_elsewhere(library: &[u8], text: &[u8], a: u32, b: u32) -> bool
    ensures { result ≡ same (name_of (joint library.now text.now) a) (name_of (joint library.now text.now) b) }
{
    if both_behind(text, a, b) {
        let by = text.len() as u32 * 256;
        return super::same_name(library, a - by, b - by);
    }
    same_across(library, text, a, b)
}

// Names of the library are compared there as far as that tells, and all others element by element.
fn compare_elsewhere(library: &[u8], text: &[u8], a: u32, b: u32) -> Ordering
    ensures { ordering_index result ≡ compared (name_of (joint library.now text.now) a) (name_of (joint library.now text.now) b) }
{
    // called twice, it stays out of `same_name`, which then is inlined where it is called
    if same_elsewhere(library, text, a, b) {
        return Ordering::Equal;
    }
    if both_behind(text, a, b) {
        let by = text.len() as u32 * 256;
        if let Some(order) = super::compare_at_once(library, a - by, b - by) {
            return order;
        }
    }
    compare_across(library, text, a, b)
}

// Which of two names comes first, `Equal` if they are the same. They are compared where they stand in the texts.
pub fn compare(library: &[u8], text: &[u8], a: u32, b: u32) -> Ordering
    ensures { ordering_index result ≡ compared (name_of (joint library.now text.now) a) (name_of (joint library.now text.now) b) }
{
    if have_room(text, a, b) {
        let x = (a / 256) as usize;
        let y = (b / 256) as usize;
        let n = x + (a % 256) as usize;
        let m = y + (b % 256) as usize;
        if let Some(order) = compare_names(&text[x..n], &text[y..m]) {
            return order;
        }
    }
    // handed on as parts, so that what is here stays in registers
    compare_elsewhere(&library[0..], &text[0..], a, b)
}

// Are a and b the same name? One word is one name, with no look at the texts.
pub fn same_name(library: &[u8], text: &[u8], a: u32, b: u32) -> bool
    ensures { result ≡ same (name_of (joint library.now text.now) a) (name_of (joint library.now text.now) b) }
{
    if a == b {
        return true;
    }
    if have_room(text, a, b) {
        let x = (a / 256) as usize;
        let y = (b / 256) as usize;
        let n = x + (a % 256) as usize;
        let m = y + (b % 256) as usize;
        return same_bytes(&text[x..n], &text[y..m]);
    }
    same_elsewhere(&library[0..], &text[0..], a, b)
}

// Are a and b the same name, or does a come first?
pub fn not_after(library: &[u8], text: &[u8], a: u32, b: u32) -> bool
    ensures { result ≡ not_after (name_of (joint library.now text.now) a) (name_of (joint library.now text.now) b) }
{
    compare(library, text, a, b).is_le()
}

// Is w, of the text, the name that v is of the library? Each is a word of its own text.
pub fn same_between(library: &[u8], v: u32, text: &[u8], w: u32) -> bool
    ensures { result ≡ same (name_of text.now w) (name_of library.now v) }
{
    same_wherever(&text[0..0], text, w, &library[0..0], library, v)
}
