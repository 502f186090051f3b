// The names of a term, each a node of its equation and counted as it is read, and the end of their arguments.
ghost use Rattle.std.specs.Prelude.{◌≡◌};
ghost use Rattle.read_steps.specs.Model.{out, onward, stay, mark, node_role, counted, term_name};
ghost use Rattle.read_steps.specs.Steps.{still, next_role};
ghost use Rattle.tape.specs.Tape.{close_role};
ghost use Rattle.read_kept.specs.Kept.{kept};

use super::kept::{keep, kept};
use meaning::numbers;
use read_steps::steps::{mark, next_is, read_name, refuse, unexpected};
use read_steps::{Place, Reading, roles};
use types::Token;

// What a name in a term is, by the token after it.
fn node_role(text: &[u8], t: Token) -> u8
    ensures { result ≡ node_role text.now t }
{
    let end = t.end;
    let after = text_tokens::next_token(text, end);
    let kind = after.kind;
    if kind == b'(' {
        return roles::HEAD;
    }
    roles::ALONE
}

// One node of the equation more, if it may have one.
pub fn counted(at: Reading) -> Reading
    ensures { result ≡ still (counted stay) at }
{
    let p = at?;
    let nodes = p.nodes;
    if numbers::NODE_LIMIT <= nodes {
        return refuse(at, numbers::OVER_SIZE);
    }
    Ok(Place {
        nodes: nodes + 1,
        ..p
    })
}

// What the name that is next is.
fn next_role(text: &[u8], at: Reading) -> u8
    ensures { result ≡ next_role text.now at }
{
    match at {
        Ok(p) => node_role(text, p.token),
        Err(_) => roles::ALONE,
    }
}

// A name in a term.
fn term_name(text: &[u8], tape: &mut [u32], at: Reading) -> Reading
    ensures { out result tape.new ≡ onward at tape.old (term_name text.now) }
{
    if next_is(at, text_tokens::IDENT) {
        let role = next_role(text, at);
        return read_name(text, tape, counted(at), role);
    }
    unexpected(at)
}

// A name in a term, from the words on.
pub fn pass_name(text: &&[u8], tape: &mut [u32], state: &mut [usize; 6])
    ensures { out (kept state.new) tape.new ≡ onward (kept state.old) tape.old (term_name text.now.now) }
{
    let at = kept(state);
    let next = term_name(*text, tape, at);
    keep(state, next);
}

// The end of arguments.
pub fn close(tape: &mut [u32], state: &mut [usize; 6])
    ensures { out (kept state.new) tape.new ≡ onward (kept state.old) tape.old (mark close_role) }
{
    let at = kept(state);
    let next = mark(tape, at, roles::CLOSE);
    keep(state, next);
}
