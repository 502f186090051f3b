// Variables and equations.
ghost use Rattle.std.specs.Prelude.{◌≡◌};
ghost use Rattle.meaning.specs.Names.{byte};
ghost use Rattle.meaning.specs.Numbers.{text_size, condition_limit};
ghost use Rattle.meaning.specs.Tokens.{equations_key, variables_key};
ghost use Rattle.meaning.specs.Grammar.{is, is_name, begins_term};
ghost use Rattle.read_steps.specs.Model.{out, onward, mark, separated, many, optional, variable_group, variables, term, sides, by_next, implied, conditional, equation_after, no_nodes, equation, equations};
ghost use Rattle.tape.specs.Tape.{condition_role};
ghost use Rattle.read_steps.specs.Steps.{still};

use meaning::numbers;
use read_entries::declarations::read_names;
use read_steps::steps::{begins_term, expect, mark, next_is, read_name, refuse, step, unexpected};
use read_steps::{Place, Reading, roles};
use read_terms::term::read_term;

fn read_group(text: &[u8], tape: &mut [u32], at: Reading) -> Reading
    ensures { out result tape.new ≡ onward at tape.old (variable_group text.now) }
{
    let a = read_names(text, tape, at, numbers::TEXT_SIZE, b',', roles::VARIABLE);
    let b = expect(text, a, b':');
    let c = expect(text, b, text_tokens::ARROW);
    read_name(text, tape, c, roles::VARIABLE_SORT)
}

// Groups of variables for as long as one begins.
fn read_groups(text: &[u8], tape: &mut [u32], at: Reading) -> Reading
    ensures { out result tape.new ≡ onward at tape.old (many text.now text_size is_name (variable_group text.now)) }
{
    let mut here = at;
    for _ in 0..numbers::TEXT_SIZE {
        if next_is(here, text_tokens::IDENT) {
            here = read_group(text, tape, here);
        } else {
            return here;
        }
    }
    if next_is(here, text_tokens::IDENT) {
        return refuse(here, numbers::OVER_SIZE);
    }
    here
}

// The variables of a module, if it has any.
pub fn section_variables(text: &[u8], tape: &mut [u32], at: Reading) -> Reading
    ensures { out result tape.new ≡ onward at tape.old (optional text.now variables_key (variables text.now)) }
{
    if next_is(at, text_tokens::VARIABLES_KEY) {
        let a = step(text, at);
        if next_is(a, text_tokens::IDENT) {
            return read_groups(text, tape, a);
        }
        return unexpected(a);
    }
    at
}

// The two terms of a sides, and what they are.
fn read_sides(text: &[u8], tape: &mut [u32], at: Reading, role: u8) -> Reading
    ensures { out result tape.new ≡ onward at tape.old (sides text.now (mark role)) }
{
    let a = read_term(text, tape, at, numbers::BRACKET_LIMIT);
    let b = expect(text, a, b'=');
    let c = read_term(text, tape, b, numbers::BRACKET_LIMIT);
    mark(tape, c, role)
}

// A condition, where a comma or an implication follows.
fn mark_by_next(tape: &mut [u32], at: Reading) -> Reading
    ensures { out result tape.new ≡ onward at tape.old by_next }
{
    if next_is(at, b',') {
        return mark(tape, at, roles::CONDITION);
    }
    if next_is(at, text_tokens::IMPLIES) {
        return mark(tape, at, roles::CONDITION);
    }
    mark(tape, at, roles::CONCLUSION)
}

// Sides that are a condition or a conclusion by what follows.
fn open_sides(text: &[u8], tape: &mut [u32], at: Reading) -> Reading
    ensures { out result tape.new ≡ onward at tape.old (sides text.now by_next) }
{
    let a = read_term(text, tape, at, numbers::BRACKET_LIMIT);
    let b = expect(text, a, b'=');
    let c = read_term(text, tape, b, numbers::BRACKET_LIMIT);
    mark_by_next(tape, c)
}

// The conclusion that an implication leads to.
fn read_implied(text: &[u8], tape: &mut [u32], at: Reading) -> Reading
    ensures { out result tape.new ≡ onward at tape.old (implied text.now) }
{
    let a = expect(text, at, text_tokens::IMPLIES);
    read_sides(text, tape, a, roles::CONCLUSION)
}

// The conditions after `when`, eight at most.
fn read_conditions(text: &[u8], tape: &mut [u32], at: Reading) -> Reading
    ensures { out result tape.new ≡ onward at tape.old (separated text.now condition_limit (byte ",") begins_term (sides text.now (mark condition_role))) }
{
    let mut here = at;
    for _ in 0..numbers::CONDITION_LIMIT {
        let read = read_sides(text, tape, here, roles::CONDITION);
        if next_is(read, b',') {
            here = step(text, read);
        } else {
            return read;
        }
    }
    if begins_term(here) {
        return refuse(here, numbers::OVER_SIZE);
    }
    unexpected(here)
}

// The conditions that follow a conclusion, if there are any.
fn read_conditional(text: &[u8], tape: &mut [u32], at: Reading) -> Reading
    ensures { out result tape.new ≡ onward at tape.old (conditional text.now) }
{
    if next_is(at, text_tokens::WHEN_KEY) {
        let a = step(text, at);
        return read_conditions(text, tape, a);
    }
    at
}

// The sides after the first in a list before an implication, seven at most.
fn read_premises(text: &[u8], tape: &mut [u32], at: Reading) -> Reading
    ensures { out result tape.new ≡ onward at tape.old (separated text.now 7 (byte ",") begins_term (sides text.now by_next)) }
{
    let mut here = at;
    for _ in 0..numbers::CONDITION_LIMIT - 1 {
        let read = open_sides(text, tape, here);
        if next_is(read, b',') {
            here = step(text, read);
        } else {
            return read;
        }
    }
    if begins_term(here) {
        return refuse(here, numbers::OVER_SIZE);
    }
    unexpected(here)
}

// What follows the first sides of an equation.
fn equation_after(text: &[u8], tape: &mut [u32], at: Reading) -> Reading
    ensures { out result tape.new ≡ onward at tape.old (equation_after text.now) }
{
    if next_is(at, b',') {
        let a = step(text, at);
        let b = read_premises(text, tape, a);
        return read_implied(text, tape, b);
    }
    if next_is(at, text_tokens::IMPLIES) {
        return read_implied(text, tape, at);
    }
    read_conditional(text, tape, at)
}

// An equation begins with no node.
fn no_nodes(at: Reading) -> Reading
    ensures { result ≡ still no_nodes at }
{
    let p = at?;
    Ok(Place { nodes: 0, ..p })
}

fn read_equation(text: &[u8], tape: &mut [u32], at: Reading) -> Reading
    ensures { out result tape.new ≡ onward at tape.old (equation text.now) }
{
    let a = no_nodes(at);
    let b = expect(text, a, b'[');
    let c = read_name(text, tape, b, roles::TAG);
    let d = expect(text, c, b']');
    let e = open_sides(text, tape, d);
    equation_after(text, tape, e)
}

// Equations for as long as one begins.
fn read_equations(text: &[u8], tape: &mut [u32], at: Reading) -> Reading
    ensures { out result tape.new ≡ onward at tape.old (many text.now text_size (is (byte "[")) (equation text.now)) }
{
    let mut here = at;
    for _ in 0..numbers::TEXT_SIZE {
        if next_is(here, b'[') {
            here = read_equation(text, tape, here);
        } else {
            return here;
        }
    }
    if next_is(here, b'[') {
        return refuse(here, numbers::OVER_SIZE);
    }
    here
}

// The equations of a module, if it has any.
pub fn section_equations(text: &[u8], tape: &mut [u32], at: Reading) -> Reading
    ensures { out result tape.new ≡ onward at tape.old (optional text.now equations_key (equations text.now)) }
{
    if next_is(at, text_tokens::EQUATIONS_KEY) {
        let a = step(text, at);
        if next_is(a, b'[') {
            return read_equations(text, tape, a);
        }
        return unexpected(a);
    }
    at
}
