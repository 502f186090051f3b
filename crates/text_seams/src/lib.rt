// Where names of two texts as one stand: in the customer's text, apart from the seam, or in the library behind it.
#![tactic(auto)]

ghost use Rattle.std.specs.Prelude.{◌≡◌, length};
ghost use Rattle.text_seams.specs.Sides.{has_room, have_room, both_behind};

// Is w a plain name that starts where the text has room for a whole one?
fn has_room(text: &[u8], w: u32) -> bool
    ensures { result ≡ has_room (length text.now) w }
{
    if w % 256 <= 40 {
        return (w / 256) as usize + 40 <= text.len();
    }
    false
}

// Are both such names?
pub fn have_room(text: &[u8], a: u32, b: u32) -> bool
    ensures { result ≡ have_room (length text.now) a b }
{
    if has_room(text, a) {
        return has_room(text, b);
    }
    false
}

// Do both names start behind the text?
pub fn both_behind(text: &[u8], a: u32, b: u32) -> bool
    ensures { result ≡ both_behind (length text.now) a b }
{
    let n = text.len();
    if n <= (a / 256) as usize {
        return n <= (b / 256) as usize;
    }
    false
}
