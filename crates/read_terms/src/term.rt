// Terms: primaries and the operators that join them. A primary is a name, a name with one to eight arguments, or a term in brackets. Terms and
// argument lists call each other, with the depth falling.
ghost use Rattle.std.specs.Prelude.{◌≡◌, ◌-◌, ◌≤◌, length};
ghost use Rattle.meaning.specs.Names.{byte};
ghost use Rattle.meaning.specs.Grammar.{begins_term};
ghost use Rattle.read_steps.specs.Model.{out, onward, pushed, inserted, expect, prefixed, joins, separated, term, primary};
ghost use Rattle.read_kept.specs.Kept.{kept};
ghost use Rattle.read_terms.specs.Parts.{token_alone, token_in, arguments_end, operands_from, named};

use meaning::numbers;
use read_kept::kept::{begins, entries_of, follows, keep, kept, not_here, over, words};
use read_kept::nodes::{close, counted, pass_name};
use read_steps::steps::{next_in, next_is, next_short, read_operator, refuse, step, unexpected};
use read_steps::{Place, Reading, forms, roles};

// The next token, an operator as a prefix one and any other without an entry.
fn read_token(text: &[u8], tape: &mut [u32], at: Reading) -> Reading
    ensures { out result tape.new ≡ onward at tape.old (token_alone text.now) }
{
    if next_is(at, text_tokens::OPERATOR) {
        return read_operator(text, tape, counted(at), forms::PREFIX, roles::PREFIX);
    }
    step(text, at)
}

// A word at i, and those from there on moved up by one, as far as `end`.
fn push(tape: &mut [u32], i: usize, end: usize, word: u32)
    requires { end ≤ length tape.old }
    ensures { tape.new ≡ pushed (end - i) i word tape.old }
{
    let mut carried = word;
    for at in i..end {
        let next = tape[at];
        tape[at] = carried;
        carried = next;
    }
}

// A word more on the tape before those from `start` on, where there is room.
fn insert(tape: &mut [u32], at: Reading, start: usize, word: u32) -> Reading
    ensures { out result tape.new ≡ onward at tape.old (inserted start word) }
{
    let p = at?;
    let n = p.entries;
    if n < tape.len() {
        push(tape, start, n + 1, word);
        return Ok(Place {
            entries: n + 1,
            ..p
        });
    }
    Ok(p)
}

// The operator that is next, as an infix one: its entry goes before what it joins to what follows, the entries from `start` on.
fn join(text: &[u8], tape: &mut [u32], at: Reading, start: usize) -> Reading
    ensures { out result tape.new ≡ onward at tape.old (joins text.now start) }
{
    if next_is(at, text_tokens::OPERATOR) {
        let a = counted(at);
        if next_short(a) {
            let w = next_in(a, forms::INFIX);
            let b = insert(tape, a, start, w * 32 + roles::INFIX as u32);
            return step(text, b);
        }
        return refuse(a, numbers::OVER_SIZE);
    }
    unexpected(at)
}

// The next token: between two operands an operator, which joins the entries from `start` on, and else what `read_token` reads. One function for
// operators, brackets and commas: no call says which of these is next, so that each is too large to be compiled into its caller, and what it takes on
// the stack is in no level of a term.
fn pass_token(text: &&[u8], tape: &mut [u32], state: &mut [usize; 6], start: usize, between: bool)
    ensures { out (kept state.new) tape.new ≡ onward (kept state.old) tape.old (token_in text.now.now start between) }
{
    if between {
        let left = kept(state);
        let joined = join(*text, tape, left, start);
        keep(state, joined);
        return;
    }
    let at = kept(state);
    let next = read_token(*text, tape, at);
    keep(state, next);
}

// The entry of a prefix operator, if one is next.
fn pass_prefix(text: &&[u8], tape: &mut [u32], state: &mut [usize; 6])
    ensures { out (kept state.new) tape.new ≡ onward (kept state.old) tape.old (prefixed text.now.now) }
{
    if follows(state, text_tokens::OPERATOR) {
        pass_token(text, tape, state, 0, false);
        return;
    }
}

// The bracket that closes.
fn pass_end(text: &&[u8], tape: &mut [u32], state: &mut [usize; 6])
    ensures { out (kept state.new) tape.new ≡ onward (kept state.old) tape.old (expect text.now.now (byte ")")) }
{
    if follows(state, b')') {
        pass_token(text, tape, state, 0, false);
        return;
    }
    not_here(state);
}

// The bracket that closes arguments, and the entry of their end.
fn end_arguments(text: &&[u8], tape: &mut [u32], state: &mut [usize; 6])
    ensures { out (kept state.new) tape.new ≡ onward (kept state.old) tape.old (arguments_end text.now.now) }
{
    pass_end(text, tape, state);
    close(tape, state);
}

// A name alone, as no bracket may be open. It is apart from the primaries that may have some, so that a name is read in no level's frame.
fn read_flat(text: &&[u8], tape: &mut [u32], state: &mut [usize; 6])
    ensures { out (kept state.new) tape.new ≡ onward (kept state.old) tape.old (primary text.now.now 0) }
{
    if follows(state, b'(') {
        over(state);
        return;
    }
    pass_name(text, tape, state);
    if follows(state, b'(') {
        over(state);
        return;
    }
}

// A term in which `depth` more brackets may be open: a primary, perhaps after a prefix operator, and what infix operators join to it.
#[cycle(reading)]
fn read_deep(text: &&[u8], tape: &mut [u32], state: &mut [usize; 6], depth: usize)
    ensures { out (kept state.new) tape.new ≡ onward (kept state.old) tape.old (term text.now.now depth) }
{
    let start = entries_of(state);
    pass_prefix(text, tape, state);
    read_operands(text, tape, state, start, depth);
}

// A term inside brackets: one function for both kinds of them, so that what `read_deep` is lent does not stand twice in a level.
#[cycle(reading)]
fn read_inside(text: &&[u8], tape: &mut [u32], state: &mut [usize; 6], depth: usize)
    ensures { out (kept state.new) tape.new ≡ onward (kept state.old) tape.old (term text.now.now depth) }
{
    read_deep(text, tape, state, depth);
}

// A primary, and operators, each with the primary that it joins to the entries from `start` on.
#[cycle(reading)]
fn read_operands(text: &&[u8], tape: &mut [u32], state: &mut [usize; 6], start: usize, depth: usize)
    ensures { out (kept state.new) tape.new ≡ onward (kept state.old) tape.old (operands_from text.now.now start depth) }
{
    // a loop: whether more may come is asked within a turn, so that a primary is read at one place, in one frame
    let mut left: usize = numbers::NODE_LIMIT;
    loop {
        read_primary(text, tape, state, depth);
        if follows(state, text_tokens::OPERATOR) {
            if left == 0 {
                over(state);
                return;
            }
            pass_token(text, tape, state, start, true);
            left -= 1;
        } else {
            return;
        }
    }
}

// A name, a name with arguments, or a term in brackets.
#[cycle(reading)]
fn read_primary(text: &&[u8], tape: &mut [u32], state: &mut [usize; 6], depth: usize)
    ensures { out (kept state.new) tape.new ≡ onward (kept state.old) tape.old (primary text.now.now depth) }
{
    if depth == 0 {
        read_flat(text, tape, state);
        return;
    }
    if follows(state, b'(') {
        pass_token(text, tape, state, 0, false);
        read_inside(text, tape, state, depth - 1);
        pass_end(text, tape, state);
        return;
    }
    read_named(text, tape, state, depth - 1);
}

// A name, with its arguments if it has some.
#[cycle(reading)]
fn read_named(text: &&[u8], tape: &mut [u32], state: &mut [usize; 6], depth: usize)
    ensures { out (kept state.new) tape.new ≡ onward (kept state.old) tape.old (named text.now.now depth) }
{
    pass_name(text, tape, state);
    if follows(state, b'(') {
        pass_token(text, tape, state, 0, false);
        read_arguments(text, tape, state, depth, numbers::ARGUMENT_LIMIT);
        end_arguments(text, tape, state);
        return;
    }
}

// Arguments, of which `left` more may come.
#[cycle(reading)]
fn read_arguments(text: &&[u8], tape: &mut [u32], state: &mut [usize; 6], depth: usize, left: usize)
    ensures { out (kept state.new) tape.new ≡ onward (kept state.old) tape.old (separated text.now.now left (byte ",") begins_term (term text.now.now depth)) }
{
    for _ in 0..left {
        read_inside(text, tape, state, depth);
        if follows(state, b',') {
            pass_token(text, tape, state, 0, false);
        } else {
            return;
        }
    }
    if begins(state) {
        over(state);
        return;
    }
    not_here(state);
}

// A term in which `depth` more brackets may be open.
pub fn read_term(text: &[u8], tape: &mut [u32], at: Reading, depth: usize) -> Reading
    ensures { out result tape.new ≡ onward at tape.old (term text.now depth) }
{
    let mut state = words(at);
    read_deep(&text, tape, &mut state, depth);
    kept(&state)
}
