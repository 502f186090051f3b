// The values and names of a decision, as they are handed over in lent slices.
#![tactic(auto)]

ghost use Rattle.std.specs.Prelude.{◌≡◌};
ghost use Rattle.values_c.specs.Values.{laid};
ghost use Rattle.ask_values.specs.Laid.{decision_values, names_laid};

use answer::Name;
use ask::Decision;
use list_pen::put_text;
use values_c::{bit, put_three, put_value};

// The values of a decision.
pub fn put_decision(values: &mut [usize], r: Decision)
    ensures { values.new ≡ laid 0 (decision_values r) values.old }
{
    let set = r.set;
    let reason = r.reason;
    let number = r.number;
    let by = r.by;
    let name = r.name;
    let in_new = r.in_new;
    let in_library = r.in_library;
    put_three(
        values,
        0,
        reason as usize,
        (set % 4294967296) as usize,
        (set / 4294967296) as usize,
    );
    put_three(values, 3, number as usize, r.place, bit(in_new));
    put_value(values, 6, bit(in_library));
    put_value(values, 7, by.length);
    put_value(values, 8, name.length);
}

// The names of a decision, each in 42 bytes.
pub fn put_names(names: &mut [u8], by: Name, name: Name)
    ensures { names.new ≡ names_laid by name names.old }
{
    let limit = names.len() + 1;
    let first = by.bytes;
    let second = name.bytes;
    let a = put_text(names, 0, limit, &first);
    put_text(names, a, limit, &second);
}
