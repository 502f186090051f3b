// Tests on two items that have one name.
#![tactic(auto)]

ghost use Rattle.std.specs.Prelude.{◌≡◌};
ghost use Rattle.meaning.specs.Checks.{other_origin, other_output, in_one_parameter, both_in_one};
ghost use Rattle.meaning.specs.Names.{same};
ghost use Rattle.text_names.specs.Word.{name_of};
ghost use Rattle.text_names.specs.Joint.{joint};
ghost use Rattle.form_rows.specs.Rows.{section_of, shape_of, item_of};
ghost use Rattle.unite_pairs.specs.Pairs.{two_sorts, two_functions, two_overloaded, overloaded_types, but_name};

use form_comparing::declarations::same_origin;
use form_comparing::sorts::{inputs_of, same_shape, same_sort, same_sorts};
use form_rows::entries::same_word;
use form_rows::{Row, kinds};
use form_sections::Section;

// What two items of one name are tested for. An enum and no function handed over: the search asks it in two places, where it begins and at a pair,
// and its contract names the test (`clash_name`).
#[derive(Clone, Copy)]
pub enum Test {
    Sorts,
    Functions,
    Overloading,
}

// Have a and b one name?
pub fn same_called(library: &[u8], text: &[u8], a: Row, b: Row) -> bool
    ensures { result ≡ same (name_of (joint library.now text.now) a.name) (name_of (joint library.now text.now) b.name) }
{
    let x = a.name;
    let y = b.name;
    same_word(library, text, x, y)
}

fn other_origin(library: &[u8], text: &[u8], tape: &[u32], a: Row, b: Row) -> bool
    ensures { result ≡ other_origin (item_of (joint library.now text.now) tape.now a) (item_of (joint library.now text.now) tape.now b) }
{
    let o = a.origin;
    let p = b.origin;
    !same_origin(library, text, tape, o, p)
}

// Two sorts of different origins?
fn two_sorts(library: &[u8], text: &[u8], tape: &[u32], a: Row, b: Row) -> bool
    ensures { result ≡ two_sorts (item_of (joint library.now text.now) tape.now a) (item_of (joint library.now text.now) tape.now b) }
{
    let k = a.kind;
    let l = b.kind;
    if k != 0 {
        return false;
    }
    if l != 0 {
        return false;
    }
    other_origin(library, text, tape, a, b)
}

// Two functions of one type and different origins?
fn two_functions(library: &[u8], text: &[u8], tape: &[u32], a: Row, b: Row) -> bool
    ensures { result ≡ two_functions (item_of (joint library.now text.now) tape.now a) (item_of (joint library.now text.now) tape.now b) }
{
    let k = a.kind;
    if k < kinds::FUNCTION {
        return false;
    }
    if same_shape(library, text, tape, a, b) {
        return other_origin(library, text, tape, a, b);
    }
    false
}

// Have the functions of the kinds k and l and of the sorts a and b equal inputs, and different outputs?
fn other_type(
    library: &[u8],
    text: &[u8],
    tape: &[u32],
    k: u32,
    a: [u32; 9],
    l: u32,
    b: [u32; 9],
) -> bool
    ensures { result ≡ overloaded_types (joint library.now text.now) tape.now k a l b }
{
    let n = inputs_of(k);
    let m = inputs_of(l);
    if n != m {
        return false;
    }
    if same_sort(library, text, tape, a[8], b[8]) {
        return false;
    }
    same_sorts(library, text, tape, a, b, n)
}

fn other_output(
    library: &[u8],
    text: &[u8],
    tape: &[u32],
    k: u32,
    a: [u32; 9],
    l: u32,
    b: [u32; 9],
) -> bool
    ensures { result ≡ other_output (shape_of (joint library.now text.now) tape.now k a) (shape_of (joint library.now text.now) tape.now l b) }
{
    if k < kinds::FUNCTION {
        return false;
    }
    if l < kinds::FUNCTION {
        return false;
    }
    other_type(library, text, tape, k, a, l, b)
}

fn in_one_parameter(library: &[u8], text: &[u8], a: Section, b: Section) -> bool
    ensures { result ≡ in_one_parameter (section_of (joint library.now text.now) a) (section_of (joint library.now text.now) b) }
{
    match (a, b) {
        (Section::Parameter(p), Section::Parameter(q)) => same_word(library, text, p, q),
        _ => false,
    }
}

// Functions of one parameter?
fn both_in_one(library: &[u8], text: &[u8], tape: &[u32], a: Row, b: Row) -> bool
    ensures { result ≡ both_in_one (item_of (joint library.now text.now) tape.now a) (item_of (joint library.now text.now) tape.now b) }
{
    let k = a.kind;
    let l = b.kind;
    if k < kinds::FUNCTION {
        return false;
    }
    if l < kinds::FUNCTION {
        return false;
    }
    let s = a.standing;
    let t = b.standing;
    in_one_parameter(library, text, s, t)
}

fn overloading(library: &[u8], text: &[u8], tape: &[u32], a: Row, b: Row) -> bool
    ensures { result ≡ two_overloaded (item_of (joint library.now text.now) tape.now a) (item_of (joint library.now text.now) tape.now b) }
{
    let k = a.kind;
    let l = b.kind;
    let s = a.sorts;
    let t = b.sorts;
    if other_output(library, text, tape, k, s, l, t) {
        return true;
    }
    both_in_one(library, text, tape, a, b)
}

// Are a and b at odds, if they have one name?
pub fn at_odds(library: &[u8], text: &[u8], tape: &[u32], test: Test, a: Row, b: Row) -> bool
    ensures { result ≡ but_name test (item_of (joint library.now text.now) tape.now a) (item_of (joint library.now text.now) tape.now b) }
{
    match test {
        Test::Sorts => two_sorts(library, text, tape, a, b),
        Test::Functions => two_functions(library, text, tape, a, b),
        Test::Overloading => overloading(library, text, tape, a, b),
    }
}
