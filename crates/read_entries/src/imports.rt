// Import expressions: renamings and bindings with their pairs.
ghost use Rattle.std.specs.Prelude.{◌≡◌};
ghost use Rattle.meaning.specs.Names.{byte};
ghost use Rattle.meaning.specs.Numbers.{binding_limit, pair_limit};
ghost use Rattle.meaning.specs.Tokens.{imports_key};
ghost use Rattle.meaning.specs.Grammar.{begins_function, is_name};
ghost use Rattle.read_steps.specs.Model.{out, onward, separated, many, some_of, optional, pair, pairs, renamed, bound, perhaps_renamed, modifier, modified, import_expression, imports};

use super::functions::read_function_name;
use meaning::numbers;
use read_steps::steps::{
    begins_function, expect, mark, next_is, read_name, refuse, step, unexpected,
};
use read_steps::{Reading, roles};

fn read_pair(text: &[u8], tape: &mut [u32], at: Reading) -> Reading
    ensures { out result tape.new ≡ onward at tape.old (pair text.now) }
{
    let a = read_function_name(text, tape, at, roles::OLD);
    let b = expect(text, a, text_tokens::ARROW);
    read_function_name(text, tape, b, roles::NEW)
}

fn pair_list(text: &[u8], tape: &mut [u32], at: Reading) -> Reading
    ensures { out result tape.new ≡ onward at tape.old (separated text.now pair_limit (byte ",") begins_function (pair text.now)) }
{
    let mut here = at;
    for _ in 0..numbers::PAIR_LIMIT {
        let read = read_pair(text, tape, here);
        if next_is(read, b',') {
            here = step(text, read);
        } else {
            return read;
        }
    }
    if begins_function(here) {
        return refuse(here, numbers::OVER_SIZE);
    }
    unexpected(here)
}

fn read_pairs(text: &[u8], tape: &mut [u32], at: Reading) -> Reading
    ensures { out result tape.new ≡ onward at tape.old (pairs text.now) }
{
    let a = expect(text, at, b'[');
    let b = pair_list(text, tape, a);
    expect(text, b, b']')
}

fn read_renamed(text: &[u8], tape: &mut [u32], at: Reading) -> Reading
    ensures { out result tape.new ≡ onward at tape.old (renamed text.now) }
{
    let a = expect(text, at, text_tokens::RENAMED_KEY);
    let b = mark(tape, a, roles::RENAMING);
    let c = expect(text, b, text_tokens::BY_KEY);
    read_pairs(text, tape, c)
}

fn read_bound(text: &[u8], tape: &mut [u32], at: Reading) -> Reading
    ensures { out result tape.new ≡ onward at tape.old (bound text.now) }
{
    let a = read_name(text, tape, at, roles::BINDING);
    let b = expect(text, a, text_tokens::BOUND_KEY);
    let c = expect(text, b, text_tokens::BY_KEY);
    let d = read_pairs(text, tape, c);
    let e = expect(text, d, text_tokens::TO_KEY);
    read_name(text, tape, e, roles::ACTUAL)
}

// Bindings for as long as one begins, four at most.
fn read_bindings(text: &[u8], tape: &mut [u32], at: Reading) -> Reading
    ensures { out result tape.new ≡ onward at tape.old (many text.now binding_limit is_name (bound text.now)) }
{
    let mut here = at;
    for _ in 0..numbers::BINDING_LIMIT {
        if next_is(here, text_tokens::IDENT) {
            here = read_bound(text, tape, here);
        } else {
            return here;
        }
    }
    if next_is(here, text_tokens::IDENT) {
        return refuse(here, numbers::OVER_SIZE);
    }
    here
}

// One binding at least.
fn some_bindings(text: &[u8], tape: &mut [u32], at: Reading) -> Reading
    ensures { out result tape.new ≡ onward at tape.old (some_of text.now binding_limit is_name (bound text.now)) }
{
    if next_is(at, text_tokens::IDENT) {
        return read_bindings(text, tape, at);
    }
    unexpected(at)
}

fn perhaps_renamed(text: &[u8], tape: &mut [u32], at: Reading) -> Reading
    ensures { out result tape.new ≡ onward at tape.old (perhaps_renamed text.now) }
{
    if next_is(at, text_tokens::RENAMED_KEY) {
        return read_renamed(text, tape, at);
    }
    at
}

// Renamed, and perhaps bindings; or bindings, and perhaps renamed.
fn read_modifier(text: &[u8], tape: &mut [u32], at: Reading) -> Reading
    ensures { out result tape.new ≡ onward at tape.old (modifier text.now) }
{
    if next_is(at, text_tokens::RENAMED_KEY) {
        let a = read_renamed(text, tape, at);
        return read_bindings(text, tape, a);
    }
    let b = some_bindings(text, tape, at);
    perhaps_renamed(text, tape, b)
}

// The clauses of an import expression, if it has any.
fn read_clauses(text: &[u8], tape: &mut [u32], at: Reading) -> Reading
    ensures { out result tape.new ≡ onward at tape.old (optional text.now (byte "{") (modified text.now)) }
{
    if next_is(at, b'{') {
        let a = step(text, at);
        let b = read_modifier(text, tape, a);
        return expect(text, b, b'}');
    }
    at
}

fn read_import(text: &[u8], tape: &mut [u32], at: Reading) -> Reading
    ensures { out result tape.new ≡ onward at tape.old (import_expression text.now) }
{
    let a = read_name(text, tape, at, roles::IMPORT);
    read_clauses(text, tape, a)
}

fn read_imports(text: &[u8], tape: &mut [u32], at: Reading) -> Reading
    ensures { out result tape.new ≡ onward at tape.old (imports text.now) }
{
    let mut here = at;
    for _ in 0..numbers::IMPORT_LIMIT {
        let read = read_import(text, tape, here);
        if next_is(read, b',') {
            here = step(text, read);
        } else {
            return read;
        }
    }
    if next_is(here, text_tokens::IDENT) {
        return refuse(here, numbers::OVER_SIZE);
    }
    unexpected(here)
}

// The imports of a module, if it has any.
pub fn section_imports(text: &[u8], tape: &mut [u32], at: Reading) -> Reading
    ensures { out result tape.new ≡ onward at tape.old (optional text.now imports_key (imports text.now)) }
{
    if next_is(at, text_tokens::IMPORTS_KEY) {
        let a = step(text, at);
        return read_imports(text, tape, a);
    }
    at
}
