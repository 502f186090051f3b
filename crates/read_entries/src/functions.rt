// The names of functions, plain or of operators with their underlines, and what a function takes and gives.
ghost use Rattle.std.specs.Prelude.{◌≡◌};
ghost use Rattle.read_steps.specs.Model.{out, onward, input_type, prefix_operator, infix_operator, one_input, two_inputs, function_by, function, function_name};

use super::declarations::read_names;
use meaning::numbers;
use read_steps::steps::{expect, next_is, read_name, read_operator};
use read_steps::{Reading, forms, roles};

// The inputs of a function: none where the arrow is next.
fn read_inputs(text: &[u8], tape: &mut [u32], at: Reading) -> Reading
    ensures { out result tape.new ≡ onward at tape.old (input_type text.now) }
{
    if next_is(at, text_tokens::ARROW) {
        return at;
    }
    read_names(text, tape, at, numbers::ARGUMENT_LIMIT, b'#', roles::INPUT)
}

fn prefix_operator(text: &[u8], tape: &mut [u32], at: Reading, role: u8) -> Reading
    ensures { out result tape.new ≡ onward at tape.old (prefix_operator text.now role) }
{
    let a = read_operator(text, tape, at, forms::PREFIX, role);
    expect(text, a, b'_')
}

fn infix_operator(text: &[u8], tape: &mut [u32], at: Reading, role: u8) -> Reading
    ensures { out result tape.new ≡ onward at tape.old (infix_operator text.now role) }
{
    let a = expect(text, at, b'_');
    let b = read_operator(text, tape, a, forms::INFIX, role);
    expect(text, b, b'_')
}

// The inputs of an infix operator.
fn two_inputs(text: &[u8], tape: &mut [u32], at: Reading) -> Reading
    ensures { out result tape.new ≡ onward at tape.old (two_inputs text.now) }
{
    let a = read_name(text, tape, at, roles::INPUT);
    let b = expect(text, a, b'#');
    read_name(text, tape, b, roles::INPUT)
}

// What stands after the name of a function: its inputs and its output.
fn prefix_type(text: &[u8], tape: &mut [u32], at: Reading) -> Reading
    ensures { out result tape.new ≡ onward at tape.old (function_by text.now (one_input text.now)) }
{
    let a = expect(text, at, b':');
    let b = read_name(text, tape, a, roles::INPUT);
    let c = expect(text, b, text_tokens::ARROW);
    read_name(text, tape, c, roles::OUTPUT)
}

fn infix_type(text: &[u8], tape: &mut [u32], at: Reading) -> Reading
    ensures { out result tape.new ≡ onward at tape.old (function_by text.now (two_inputs text.now)) }
{
    let a = expect(text, at, b':');
    let b = two_inputs(text, tape, a);
    let c = expect(text, b, text_tokens::ARROW);
    read_name(text, tape, c, roles::OUTPUT)
}

fn plain_type(text: &[u8], tape: &mut [u32], at: Reading) -> Reading
    ensures { out result tape.new ≡ onward at tape.old (function_by text.now (input_type text.now)) }
{
    let a = expect(text, at, b':');
    let b = read_inputs(text, tape, a);
    let c = expect(text, b, text_tokens::ARROW);
    read_name(text, tape, c, roles::OUTPUT)
}

// A prefix operator has one input, an infix one has two.
pub fn read_function(text: &[u8], tape: &mut [u32], at: Reading, role: u8) -> Reading
    ensures { out result tape.new ≡ onward at tape.old (function text.now role) }
{
    if next_is(at, text_tokens::OPERATOR) {
        let a = prefix_operator(text, tape, at, role);
        return prefix_type(text, tape, a);
    }
    if next_is(at, b'_') {
        let b = infix_operator(text, tape, at, role);
        return infix_type(text, tape, b);
    }
    let c = read_name(text, tape, at, role);
    plain_type(text, tape, c)
}

// The name of a function or a sort, as pairs have it.
pub fn read_function_name(text: &[u8], tape: &mut [u32], at: Reading, role: u8) -> Reading
    ensures { out result tape.new ≡ onward at tape.old (function_name text.now role) }
{
    if next_is(at, text_tokens::OPERATOR) {
        return prefix_operator(text, tape, at, role);
    }
    if next_is(at, b'_') {
        return infix_operator(text, tape, at, role);
    }
    read_name(text, tape, at, role)
}
