// Names in a list, signatures and parameters.
ghost use Rattle.std.specs.Prelude.{◌≡◌};
ghost use Rattle.meaning.specs.Numbers.{text_size};
ghost use Rattle.meaning.specs.Names.{byte};
ghost use Rattle.meaning.specs.Tokens.{exports_key, functions_key, parameters_key, sorts_key};
ghost use Rattle.meaning.specs.Grammar.{begins_function};
ghost use Rattle.read_steps.specs.Model.{out, onward, many, optional, names, function, some_of, signature, enclosed, parameter, parameters, exports};

use super::functions::read_function;
use meaning::numbers;
use read_steps::steps::{
    begins_function, expect, next_is, next_word, read_name, refuse, step, this_name, unexpected,
};
use read_steps::{Reading, roles};

// Names with a mark between them, `limit` at most.
pub fn read_names(
    text: &[u8],
    tape: &mut [u32],
    at: Reading,
    limit: usize,
    comma: u8,
    role: u8,
) -> Reading
    ensures { out result tape.new ≡ onward at tape.old (names text.now limit comma role) }
{
    let mut here = at;
    for _ in 0..limit {
        let read = read_name(text, tape, here, role);
        if next_is(read, comma) {
            here = step(text, read);
        } else {
            return read;
        }
    }
    if next_is(here, text_tokens::IDENT) {
        return refuse(here, numbers::OVER_SIZE);
    }
    unexpected(here)
}

// Functions for as long as one begins.
fn read_functions(text: &[u8], tape: &mut [u32], at: Reading, role: u8) -> Reading
    ensures { out result tape.new ≡ onward at tape.old (many text.now text_size begins_function (function text.now role)) }
{
    let mut here = at;
    for _ in 0..numbers::TEXT_SIZE {
        if begins_function(here) {
            here = read_function(text, tape, here, role);
        } else {
            return here;
        }
    }
    if begins_function(here) {
        return refuse(here, numbers::OVER_SIZE);
    }
    here
}

// The sorts of a section, if it has any.
fn section_sorts(text: &[u8], tape: &mut [u32], at: Reading, role: u8) -> Reading
    ensures { out result tape.new ≡ onward at tape.old (optional text.now sorts_key (names text.now text_size (byte ",") role)) }
{
    if next_is(at, text_tokens::SORTS_KEY) {
        let a = step(text, at);
        return read_names(text, tape, a, numbers::TEXT_SIZE, b',', role);
    }
    at
}

// The functions of a section, if it has any.
fn section_functions(text: &[u8], tape: &mut [u32], at: Reading, role: u8) -> Reading
    ensures { out result tape.new ≡ onward at tape.old (optional text.now functions_key (some_of text.now text_size begins_function (function text.now role))) }
{
    if next_is(at, text_tokens::FUNCTIONS_KEY) {
        let a = step(text, at);
        if begins_function(a) {
            return read_functions(text, tape, a, role);
        }
        return unexpected(a);
    }
    at
}

pub fn read_signature(
    text: &[u8],
    tape: &mut [u32],
    at: Reading,
    sorts: u8,
    functions: u8,
) -> Reading
    ensures { out result tape.new ≡ onward at tape.old (signature text.now sorts functions) }
{
    let a = section_sorts(text, tape, at, sorts);
    section_functions(text, tape, a, functions)
}

// A signature between `begin` and `end`.
fn read_enclosed(text: &[u8], tape: &mut [u32], at: Reading, sorts: u8, functions: u8) -> Reading
    ensures { out result tape.new ≡ onward at tape.old (enclosed text.now sorts functions) }
{
    let a = expect(text, at, text_tokens::BEGIN_KEY);
    let b = read_signature(text, tape, a, sorts, functions);
    expect(text, b, text_tokens::END_KEY)
}

fn read_parameter(text: &[u8], tape: &mut [u32], at: Reading) -> Reading
    ensures { out result tape.new ≡ onward at tape.old (parameter text.now) }
{
    let w = next_word(at);
    let a = read_name(text, tape, at, roles::PARAMETER);
    let b = read_enclosed(
        text,
        tape,
        a,
        roles::PARAMETER_SORT,
        roles::PARAMETER_FUNCTION,
    );
    this_name(text, b, w)
}

fn read_parameters(text: &[u8], tape: &mut [u32], at: Reading) -> Reading
    ensures { out result tape.new ≡ onward at tape.old (parameters text.now) }
{
    let mut here = at;
    for _ in 0..numbers::TEXT_SIZE {
        let read = read_parameter(text, tape, here);
        if next_is(read, b',') {
            here = step(text, read);
        } else {
            return read;
        }
    }
    if next_is(here, text_tokens::IDENT) {
        return refuse(here, numbers::OVER_SIZE);
    }
    unexpected(here)
}

// The parameters of a module, if it has any.
pub fn section_parameters(text: &[u8], tape: &mut [u32], at: Reading) -> Reading
    ensures { out result tape.new ≡ onward at tape.old (optional text.now parameters_key (parameters text.now)) }
{
    if next_is(at, text_tokens::PARAMETERS_KEY) {
        let a = step(text, at);
        return read_parameters(text, tape, a);
    }
    at
}

// What a module exports, if it says so.
pub fn section_exports(text: &[u8], tape: &mut [u32], at: Reading) -> Reading
    ensures { out result tape.new ≡ onward at tape.old (optional text.now exports_key (exports text.now)) }
{
    if next_is(at, text_tokens::EXPORTS_KEY) {
        let a = step(text, at);
        return read_enclosed(text, tape, a, roles::EXPORT_SORT, roles::EXPORT_FUNCTION);
    }
    at
}
