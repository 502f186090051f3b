// The bytes of a text, and of two as one, the customer's text with the library behind it; and how many of them a name's token may have.
#![tactic(auto)]

ghost use Rattle.std.specs.Prelude.{◌≡◌, ◌%◌, min, get_or};
ghost use Rattle.text_bytes.specs.Joint.{joint};

// The byte at i, and 0 past the end.
pub fn byte_at(text: &[u8], i: usize) -> u8
    ensures { result ≡ get_or text.now i 0 }
{
    if i < text.len() { text[i] } else { 0 }
}

// The byte at i of both, and 0 past the end.
pub fn byte_in(library: &[u8], text: &[u8], i: usize) -> u8
    ensures { result ≡ get_or (joint library.now text.now) i 0 }
{
    let n = text.len();
    if i < n {
        return text[i];
    }
    byte_at(library, i - n)
}

// The lesser of two.
pub fn lesser(a: usize, b: usize) -> usize
    ensures { result ≡ min a b }
{
    a.min(b)
}

// How many bytes the token of the name w may have.
pub fn token_room(w: u32) -> usize
    ensures { result ≡ min (w % 64) 40 }
{
    lesser((w % 64) as usize, 40)
}
