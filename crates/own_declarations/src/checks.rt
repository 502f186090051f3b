// 13: a type that uses a sort which is not available. 12: a variable declared twice, or called like a constant.
ghost use Rattle.std.specs.Prelude.{◌≡◌, ◌+◌, ◌-◌};
ghost use Rattle.text_names.specs.Word.{name_of};
ghost use Rattle.text_names.specs.Joint.{joint};
ghost use Rattle.form.specs.Memory.{part};
ghost use Rattle.form.specs.Verdicts.{told};
ghost use Rattle.own_repeats.specs.Scans.{found, walked};
ghost use Rattle.own_declarations.specs.Sorts.{Ready};
ghost use Rattle.own_declarations.specs.Checked.{lacks, lacks_function, lacks_variable, lacks_sort, available_at, wrong_at, variable_at};

use super::Own;
use super::sorts::{first_named, has_row, is_inside, is_seen};
use form::{Culprit, Refusal};
use form_rows::entries::{arity_at, is_function_role, name_at, role_at, sort_place};
use form_rows::kinds;
use meaning::numbers;
use tape::roles;

// Is the sort that stands at i not available: not visible, and in the hidden section not the module's hidden one either?
fn lacks(
    library: &[u8],
    text: &[u8],
    work: &[u32],
    t: usize,
    own: Own,
    hidden: bool,
    i: usize,
) -> bool
    requires { Ready work.now t own }
    ensures { result ≡ lacks (joint library.now text.now) (part work.now 0 t) work.now own hidden i }
{
    let w = name_at(&work[0..t], i);
    if hidden {
        if is_inside(library, text, work, t, own, w) {
            return false;
        }
        return true;
    }
    if is_seen(library, text, work, t, own, w) {
        return false;
    }
    true
}

// Is one of the sorts from i up to `end` not available?
fn lacks_one(
    library: &[u8],
    text: &[u8],
    work: &[u32],
    t: usize,
    own: Own,
    hidden: bool,
    i: usize,
    end: usize,
) -> bool
    requires { Ready work.now t own }
    ensures { result ≡ found (lacks (joint library.now text.now) (part work.now 0 t) work.now own hidden) i (end - i) }
{
    for j in i..end {
        if lacks(library, text, work, t, own, hidden, j) {
            return true;
        }
    }
    false
}

// Is a sort of the function declared at d not available?
fn lacks_function(
    library: &[u8],
    text: &[u8],
    work: &[u32],
    t: usize,
    own: Own,
    hidden: bool,
    d: u32,
) -> bool
    requires { Ready work.now t own }
    ensures { result ≡ lacks_function (joint library.now text.now) (part work.now 0 t) work.now own hidden d }
{
    let n = arity_at(&work[0..t], d);
    let i = d as usize + 1;
    lacks_one(library, text, work, t, own, hidden, i, i + n as usize + 1)
}

// Is the sort of the variable declared at d not available?
fn lacks_variable(library: &[u8], text: &[u8], work: &[u32], t: usize, own: Own, d: u32) -> bool
    requires { Ready work.now t own }
    ensures { result ≡ lacks_variable (joint library.now text.now) (part work.now 0 t) work.now own d }
{
    let i = sort_place(&work[0..t], d);
    lacks(library, text, work, t, own, true, i)
}

// Uses the declaration at d a sort that is not available?
fn lacks_sort(library: &[u8], text: &[u8], work: &[u32], t: usize, own: Own, d: u32) -> bool
    requires { Ready work.now t own }
    ensures { result ≡ lacks_sort (joint library.now text.now) (part work.now 0 t) work.now own d }
{
    let role = role_at(&work[0..t], d as usize);
    if is_function_role(role) {
        let hidden = role == roles::HIDDEN_FUNCTION;
        return lacks_function(library, text, work, t, own, hidden, d);
    }
    if role == roles::VARIABLE {
        return lacks_variable(library, text, work, t, own, d);
    }
    false
}

fn available_at(
    library: &[u8],
    text: &[u8],
    work: &[u32],
    t: usize,
    own: Own,
    d: u32,
) -> Result<(), Refusal>
    requires { Ready work.now t own }
    ensures { told (joint library.now text.now) result ≡ available_at (joint library.now text.now) (part work.now 0 t) work.now own d }
{
    if lacks_sort(library, text, work, t, own, d) {
        let name = name_at(&work[0..t], d as usize);
        return Err(Refusal {
            number: numbers::BAD_SORT,
            culprit: Culprit { name, actual: 0 },
        });
    }
    Ok(())
}

// 13, told at the first function or variable in text order.
pub fn available(
    library: &[u8],
    text: &[u8],
    work: &[u32],
    t: usize,
    own: Own,
) -> Result<(), Refusal>
    requires { Ready work.now t own }
    ensures { told (joint library.now text.now) result ≡ walked (available_at (joint library.now text.now) (part work.now 0 t) work.now own) own.from (own.end - own.from) }
{
    let end = own.end;
    for i in own.from..end {
        available_at(library, text, work, t, own, i)?;
    }
    Ok(())
}

// Is the variable at i called like one before it, or like a constant among the visible rows or the n rows from b on?
fn wrong_at(
    library: &[u8],
    text: &[u8],
    work: &[u32],
    t: usize,
    own: Own,
    b: u32,
    n: u32,
    i: u32,
) -> bool
    requires { Ready work.now t own }
    ensures { result ≡ wrong_at (joint library.now text.now) (part work.now 0 t) work.now own b n i }
{
    let from = own.from;
    let rows = own.rows;
    let count = own.count;
    let w = name_at(&work[0..t], i as usize);
    if first_named(library, text, &work[0..t], roles::VARIABLE, w, from, i) < i {
        return true;
    }
    if has_row(library, text, work, rows, count, kinds::FUNCTION, w) {
        return true;
    }
    has_row(library, text, work, b, n, kinds::FUNCTION, w)
}

fn variable_at(
    library: &[u8],
    text: &[u8],
    work: &[u32],
    t: usize,
    own: Own,
    b: u32,
    n: u32,
    i: u32,
) -> Result<(), Refusal>
    requires { Ready work.now t own }
    ensures { told (joint library.now text.now) result ≡ variable_at (joint library.now text.now) (part work.now 0 t) work.now own b n i }
{
    if role_at(&work[0..t], i as usize) == roles::VARIABLE {
        if wrong_at(library, text, work, t, own, b, n, i) {
            let name = name_at(&work[0..t], i as usize);
            return Err(Refusal {
                number: numbers::BAD_VARIABLE,
                culprit: Culprit { name, actual: 0 },
            });
        }
        return Ok(());
    }
    Ok(())
}

// 12, told at the first variable in text order. The rows of `own` are all that is visible, the module's own among them; its own hidden items
// are the n rows from b on.
pub fn variables_right(
    library: &[u8],
    text: &[u8],
    work: &[u32],
    t: usize,
    own: Own,
    b: u32,
    n: u32,
) -> Result<(), Refusal>
    requires { Ready work.now t own }
    ensures { told (joint library.now text.now) result ≡ walked (variable_at (joint library.now text.now) (part work.now 0 t) work.now own b n) own.from (own.end - own.from) }
{
    let end = own.end;
    for i in own.from..end {
        variable_at(library, text, work, t, own, b, n, i)?;
    }
    Ok(())
}
