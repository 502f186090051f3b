// The values and names of an answer, as they are handed over in lent slices.
#![tactic(auto)]

ghost use Rattle.std.specs.Prelude.{◌≡◌};
ghost use Rattle.values_c.specs.Values.{laid};
ghost use Rattle.list_pen.specs.Pen.{pen, written};
ghost use Rattle.answer_values.specs.Laid.{answer_values, names_laid};

use answer::{Answer, Name};
use list_pen::put_text;
use values_c::{bit, put_three, put_value};

// The values of an answer.
pub fn put_answer(values: &mut [usize], r: Answer)
    ensures { values.new ≡ laid 0 (answer_values r) values.old }
{
    let number = r.number;
    let modules = r.modules;
    let evaluating = r.evaluating;
    let culprit = r.culprit;
    let actual = r.actual;
    put_three(values, 0, number as usize, modules as usize, r.at);
    put_three(values, 3, evaluating.length, culprit.length, r.listing);
    let mark = r.in_library;
    put_value(values, 6, bit(mark));
    put_value(values, 7, actual.length);
}

// The 42 bytes of a name from `at` on; the place behind them. Apart, so that one name at a time is copied.
fn put_bytes(names: &mut [u8], at: usize, limit: usize, name: Name) -> usize
    ensures { pen result names.new ≡ written limit name.bytes (pen at names.old) }
{
    let bytes = name.bytes;
    put_text(names, at, limit, &bytes)
}

// The names of an answer, each in 42 bytes.
pub fn put_names(names: &mut [u8], evaluating: Name, culprit: Name, actual: Name)
    ensures { names.new ≡ names_laid evaluating culprit actual names.old }
{
    let limit = names.len() + 1;
    let a = put_bytes(names, 0, limit, evaluating);
    let b = put_bytes(names, a, limit, culprit);
    put_bytes(names, b, limit, actual);
}
