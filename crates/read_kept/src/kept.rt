// Where reading is, kept as six words that a term's functions hand on as one reference: what each open bracket has on the stack stays small.
ghost use Rattle.std.specs.Prelude.{◌≡◌};
ghost use Rattle.meaning.specs.Grammar.{is, begins_term};
ghost use Rattle.read_steps.specs.Model.{refuse, unexpected};
ghost use Rattle.read_steps.specs.Steps.{still, next_passes, entries_of};
ghost use Rattle.read_kept.specs.Kept.{kept};

use meaning::numbers;
use read_steps::steps::{begins_term, next_is, refuse, unexpected};
use read_steps::{Misread, Place, Reading};
use types::Token;

// The words of an answer.
pub fn words(at: Reading) -> [usize; 6]
    ensures { kept result ≡ at }
{
    match at {
        Ok(p) => {
            let t = p.token;
            [0, t.kind as usize, t.start, t.end, p.nodes, p.entries]
        }
        Err(e) => [e.number as usize + 1, 0, e.place, 0, 0, 0],
    }
}

// The answer of the words.
pub fn kept(state: &[usize; 6]) -> Reading
    ensures { result ≡ kept state.now }
{
    let number = state[0];
    let start = state[2];
    if number == 0 {
        let token = Token {
            kind: (state[1] % 256) as u8,
            start,
            end: state[3],
        };
        return Ok(Place {
            token,
            nodes: state[4],
            entries: state[5],
        });
    }
    Err(Misread {
        number: ((number - 1) % 256) as u8,
        place: start,
    })
}

pub fn keep(state: &mut [usize; 6], at: Reading)
    ensures { kept state.new ≡ at }
{
    *state = words(at);
}

// Is the next token of this kind?
pub fn follows(state: &[usize; 6], kind: u8) -> bool
    ensures { result ≡ next_passes (is kind) (kept state.now) }
{
    next_is(kept(state), kind)
}

// How many entries there are.
pub fn entries_of(state: &[usize; 6]) -> usize
    ensures { result ≡ entries_of (kept state.now) }
{
    if state[0] == 0 {
        return state[5];
    }
    0
}

// Refused: more than there may be.
pub fn over(state: &mut [usize; 6])
    ensures { kept state.new ≡ still (refuse 4) (kept state.old) }
{
    let at = kept(state);
    let next = refuse(at, numbers::OVER_SIZE);
    keep(state, next);
}

// May the next token begin a term?
pub fn begins(state: &[usize; 6]) -> bool
    ensures { result ≡ next_passes begins_term (kept state.now) }
{
    begins_term(kept(state))
}

// The next token may not stand here.
pub fn not_here(state: &mut [usize; 6])
    ensures { kept state.new ≡ still unexpected (kept state.old) }
{
    let at = kept(state);
    let next = unexpected(at);
    keep(state, next);
}
