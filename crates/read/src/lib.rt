// The grammar: a text is read token by token, and what it says is written to the tape; or it is refused, with a number and a place.
#![tactic(auto)]

ghost use Rattle.std.specs.Prelude.{◌≡◌, length, replicate};
ghost use Rattle.read_steps.specs.Model.{out, wiped, read};
ghost use Rattle.read_known.specs.Known.{named_so};

use meaning::numbers;
use read_modules::read_modules;
use read_steps::{Misread, Place, Reading};

// A refusal leaves zeros.
fn wipe(tape: &mut [u32], r: Reading) -> Reading
    ensures { out result tape.new ≡ wiped r tape.old }
{
    if r.is_err() {
        tape.fill(0);
    }
    r
}

// What a text of so many modules at most says, on the tape; or its leftmost offence, and zeros. The heads are the words of modules of the
// library, whose names are taken.
pub fn read(text: &[u8], library: &[u8], heads: &[u32], limit: usize, tape: &mut [u32]) -> Reading
    ensures { out result tape.new ≡ read text.now limit (named_so library.now heads.now) tape.old }
{
    if numbers::TEXT_SIZE < text.len() {
        return wipe(
            tape,
            Err(Misread {
                number: numbers::OVER_SIZE,
                place: numbers::TEXT_SIZE,
            }),
        );
    }
    let token = text_tokens::next_token(text, 0);
    let first = Ok(Place {
        token,
        nodes: 0,
        entries: 0,
    });
    let r = read_modules(text, library, heads, limit, tape, first);
    wipe(tape, r)
}
