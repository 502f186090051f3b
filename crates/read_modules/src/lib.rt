// Modules, to the end of the text.
#![tactic(auto)]

ghost use Rattle.std.specs.Prelude.{◌≡◌};
ghost use Rattle.read_steps.specs.Model.{out, onward, declares, taken, fresh_name, front, back, module_named, a_module, modules};
ghost use Rattle.read_steps.specs.Steps.{twice};
ghost use Rattle.read_known.specs.Known.{named_so};

use meaning::numbers;
use read_entries::declarations::{read_signature, section_exports, section_parameters};
use read_entries::imports::section_imports;
use read_equations::equations::{section_equations, section_variables};
use read_known::is_known;
use read_steps::steps::{expect, next_is, next_word, read_name, refuse, this_name, unexpected};
use read_steps::{Reading, roles};

// Is this the entry of a module with the name of that word?
fn declares(text: &[u8], w: u32, entry: u32) -> bool
    ensures { result ≡ declares text.now w entry }
{
    if entry % 32 == roles::MODULE as u32 {
        return text_names::same_name(text, w, entry / 32);
    }
    false
}

// Does one of the first n entries declare a module with the name of that word?
fn is_taken(text: &[u8], tape: &[u32], w: u32, n: usize) -> bool
    ensures { result ≡ taken text.now w n tape.now }
{
    tape.iter().take(n).any(|entry| declares(text, w, *entry))
}

// Refused at `at`, if reading went on from there.
fn twice(at: Reading, read: Reading) -> Reading
    ensures { result ≡ twice at read }
{
    read?;
    refuse(at, numbers::MODULE_TWICE)
}

// A name that no earlier module has, nor one of the library, where these are the heads' words.
fn fresh_name(text: &[u8], library: &[u8], heads: &[u32], tape: &mut [u32], at: Reading) -> Reading
    ensures { out result tape.new ≡ onward at tape.old (fresh_name text.now (named_so library.now heads.now)) }
{
    let p = at?;
    let n = p.entries;
    let w = next_word(at);
    let again = is_taken(text, tape, w, n);
    let known = is_known(library, heads, text, w);
    let a = read_name(text, tape, at, roles::MODULE);
    if again {
        return twice(at, a);
    }
    if known {
        return twice(at, a);
    }
    a
}

// What a module declares before its hidden section.
fn read_front(text: &[u8], tape: &mut [u32], at: Reading) -> Reading
    ensures { out result tape.new ≡ onward at tape.old (front text.now) }
{
    let a = section_parameters(text, tape, at);
    let b = section_exports(text, tape, a);
    section_imports(text, tape, b)
}

// What a module declares from its hidden section on.
fn read_back(text: &[u8], tape: &mut [u32], at: Reading) -> Reading
    ensures { out result tape.new ≡ onward at tape.old (back text.now) }
{
    let a = read_signature(text, tape, at, roles::HIDDEN_SORT, roles::HIDDEN_FUNCTION);
    let b = section_variables(text, tape, a);
    section_equations(text, tape, b)
}

// A module from its name on, whose word is w.
fn module_named(
    text: &[u8],
    library: &[u8],
    heads: &[u32],
    tape: &mut [u32],
    at: Reading,
    w: u32,
) -> Reading
    ensures { out result tape.new ≡ onward at tape.old (module_named text.now (named_so library.now heads.now) w) }
{
    let a = fresh_name(text, library, heads, tape, at);
    let b = expect(text, a, text_tokens::BEGIN_KEY);
    let c = read_front(text, tape, b);
    let d = read_back(text, tape, c);
    let e = expect(text, d, text_tokens::END_KEY);
    this_name(text, e, w)
}

fn read_module(text: &[u8], library: &[u8], heads: &[u32], tape: &mut [u32], at: Reading) -> Reading
    ensures { out result tape.new ≡ onward at tape.old (a_module text.now (named_so library.now heads.now)) }
{
    let a = expect(text, at, text_tokens::MODULE_KEY);
    let w = next_word(a);
    module_named(text, library, heads, tape, a, w)
}

// The modules to the end of the text, so many at most.
pub fn read_modules(
    text: &[u8],
    library: &[u8],
    heads: &[u32],
    limit: usize,
    tape: &mut [u32],
    at: Reading,
) -> Reading
    ensures { out result tape.new ≡ onward at tape.old (modules text.now limit (named_so library.now heads.now)) }
{
    let mut here = at;
    for _ in 0..limit {
        here = read_module(text, library, heads, tape, here);
        if next_is(here, text_tokens::END_OF_TEXT) {
            return here;
        }
    }
    if next_is(here, text_tokens::MODULE_KEY) {
        return refuse(here, numbers::OVER_SIZE);
    }
    unexpected(here)
}
