// Single tokens and single entries. Each step goes on from an answer, and does nothing where that is a refusal.
ghost use Rattle.std.specs.Prelude.{◌≡◌, ◌-◌, ◌<◌};
ghost use Rattle.meaning.specs.Grammar.{is, begins_function, begins_term};
ghost use Rattle.text_names.specs.Word.{plain_form};
ghost use Rattle.read_steps.specs.Model.{out, onward, refuse, unexpected, word_in, written, mark, step, expect, short_name, as_entry, name, bare_operator, this_name};
ghost use Rattle.read_steps.specs.Steps.{still, next_passes, next_short, next_in, next_named};

use super::{Misread, Place, Reading, forms};
use meaning::numbers;
use types::Token;

// Is the next token of this kind?
pub fn next_is(at: Reading, kind: u8) -> bool
    ensures { result ≡ next_passes (is kind) at }
{
    match at {
        Ok(p) => p.token.kind == kind,
        Err(_) => false,
    }
}

// May the next token begin a term?
pub fn begins_term(at: Reading) -> bool
    ensures { result ≡ next_passes begins_term at }
{
    if next_is(at, text_tokens::IDENT) {
        return true;
    }
    if next_is(at, text_tokens::OPERATOR) {
        return true;
    }
    next_is(at, b'(')
}

// May it begin a function's name?
pub fn begins_function(at: Reading) -> bool
    ensures { result ≡ next_passes begins_function at }
{
    if next_is(at, text_tokens::IDENT) {
        return true;
    }
    if next_is(at, text_tokens::OPERATOR) {
        return true;
    }
    next_is(at, b'_')
}

// Refused, at the next token.
pub fn refuse(at: Reading, number: u8) -> Reading
    ensures { result ≡ still (refuse number) at }
{
    let p = at?;
    Err(Misread {
        number,
        place: p.token.start,
    })
}

// The next token may not stand here.
pub fn unexpected(at: Reading) -> Reading
    ensures { result ≡ still unexpected at }
{
    if next_is(at, text_tokens::NO_TOKEN) {
        return refuse(at, numbers::NO_TOKEN_THERE);
    }
    refuse(at, numbers::NOT_ALLOWED)
}

// The next token, passed over.
pub fn step(text: &[u8], at: Reading) -> Reading
    ensures { result ≡ still (step text.now) at }
{
    let p = at?;
    Ok(Place {
        token: text_tokens::next_token(text, p.token.end),
        ..p
    })
}

// A token of this kind, passed over.
pub fn expect(text: &[u8], at: Reading, kind: u8) -> Reading
    ensures { result ≡ still (expect text.now kind) at }
{
    if next_is(at, kind) {
        return step(text, at);
    }
    unexpected(at)
}

// How many bytes a token has.
fn size_of(t: Token) -> usize
    ensures { result ≡ t.end - t.start }
{
    t.end.saturating_sub(t.start)
}

// The word of a name in a form: its token's place and size.
fn word_in(form: u32, t: Token) -> u32
    requires { form < 4 }
    ensures { result ≡ word_in form t }
{
    let start = t.start;
    let size = size_of(t);
    (start % 65536 * 256 + size % 64) as u32 + form * 64
}

// The word of the next token as a name in a form.
pub fn next_in(at: Reading, form: u32) -> u32
    requires { form < 4 }
    ensures { result ≡ next_in form at }
{
    match at {
        Ok(p) => word_in(form, p.token),
        Err(_) => 0,
    }
}

// The word of the next token as a plain name.
pub fn next_word(at: Reading) -> u32
    ensures { result ≡ next_in plain_form at }
{
    next_in(at, forms::PLAIN)
}

// Is the next token no longer than a name may be?
pub fn next_short(at: Reading) -> bool
    ensures { result ≡ next_short at }
{
    match at {
        Ok(p) => size_of(p.token) <= numbers::NAME_SIZE,
        Err(_) => false,
    }
}

// A word more on the tape, where there is room.
pub fn write(tape: &mut [u32], at: Reading, word: u32) -> Reading
    ensures { out result tape.new ≡ onward at tape.old (written word) }
{
    let p = at?;
    let n = p.entries;
    if n < tape.len() {
        tape[n] = word;
        return Ok(Place {
            entries: n + 1,
            ..p
        });
    }
    Ok(p)
}

// An entry without a name.
pub fn mark(tape: &mut [u32], at: Reading, role: u8) -> Reading
    ensures { out result tape.new ≡ onward at tape.old (mark role) }
{
    write(tape, at, role as u32)
}

// A name of bounded size in a form, written with its role.
fn short_name(text: &[u8], tape: &mut [u32], at: Reading, form: u32, role: u8) -> Reading
    requires { form < 4 }
    ensures { out result tape.new ≡ onward at tape.old (short_name text.now form (as_entry role)) }
{
    if next_short(at) {
        let w = next_in(at, form);
        let a = write(tape, at, w * 32 + role as u32);
        return step(text, a);
    }
    refuse(at, numbers::OVER_SIZE)
}

// A name, written with its role.
pub fn read_name(text: &[u8], tape: &mut [u32], at: Reading, role: u8) -> Reading
    ensures { out result tape.new ≡ onward at tape.old (name text.now role) }
{
    if next_is(at, text_tokens::IDENT) {
        return short_name(text, tape, at, forms::PLAIN, role);
    }
    unexpected(at)
}

// An operator without its underlines, written in its form with its role.
pub fn read_operator(text: &[u8], tape: &mut [u32], at: Reading, form: u32, role: u8) -> Reading
    requires { form < 4 }
    ensures { out result tape.new ≡ onward at tape.old (bare_operator text.now form (as_entry role)) }
{
    if next_is(at, text_tokens::OPERATOR) {
        return short_name(text, tape, at, form, role);
    }
    unexpected(at)
}

// Is the next token the name of that word?
fn next_named(text: &[u8], at: Reading, w: u32) -> bool
    ensures { result ≡ next_named text.now w at }
{
    if next_short(at) {
        let v = next_word(at);
        return text_names::same_name(text, w, v);
    }
    false
}

// The name after `end`, which is that of what it closes.
pub fn this_name(text: &[u8], at: Reading, w: u32) -> Reading
    ensures { result ≡ still (this_name text.now w) at }
{
    if next_is(at, text_tokens::IDENT) {
        if next_named(text, at, w) {
            return step(text, at);
        }
        return refuse(at, numbers::OTHER_END);
    }
    unexpected(at)
}
