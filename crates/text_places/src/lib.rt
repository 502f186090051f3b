// Where the token of a name stands in a text, and whether two names of it are the same: plain ones where they stand, all others byte by byte.
#![tactic(auto)]

ghost use Rattle.std.specs.Prelude.{◌≡◌, ◌+◌, ◌/◌, min, length};
ghost use Rattle.meaning.specs.Names.{same};
ghost use Rattle.text_spelling.specs.Word.{token_of, name_of};
ghost use Rattle.text_spelling.specs.Joint.{joint};
ghost use Rattle.text_places.specs.Plain.{are_plain};

use text_spelling::{lesser, same_bytes, same_wherever};

// Where the token of the name w starts, within the text.
pub fn token_start(text: &[u8], w: u32) -> usize
    ensures { result ≡ min (w / 256) (length text.now) }
{
    lesser((w / 256) as usize, text.len())
}

// Past the token of the name w.
pub fn token_end(text: &[u8], w: u32) -> usize
    ensures { result ≡ min (w / 256) (length text.now) + length (token_of text.now w) }
{
    let start = token_start(text, w);
    start + lesser(lesser((w % 64) as usize, 40), text.len() - start)
}

// Are both names plain? Then each stands in the text as it is.
pub fn are_plain(a: u32, b: u32) -> bool
    ensures { result ≡ are_plain a b }
{
    if a % 256 < 64 {
        return b % 256 < 64;
    }
    false
}

// Are a and b, of two texts as one, the same name? They are compared byte by byte, wherever they lie.
pub fn same_across(library: &[u8], text: &[u8], a: u32, b: u32) -> bool
    ensures { result ≡ same (name_of (joint library.now text.now) a) (name_of (joint library.now text.now) b) }
{
    same_wherever(library, text, a, library, text, b)
}

// Are a and b the same name? One word is one name, with no look at the text.
pub fn same_name(text: &[u8], a: u32, b: u32) -> bool
    ensures { result ≡ same (name_of text.now a) (name_of text.now b) }
{
    if a == b {
        return true;
    }
    if are_plain(a, b) {
        let x = token_start(text, a);
        let y = token_start(text, b);
        let n = token_end(text, a);
        let m = token_end(text, b);
        return same_bytes(&text[x..n], &text[y..m]);
    }
    same_across(&text[0..0], text, a, b)
}
