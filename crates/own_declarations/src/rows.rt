// A module's own declarations as rows.
ghost use Rattle.std.specs.Prelude.{◌≡◌, ◌+◌, ◌≤◌};
ghost use Rattle.text_names.specs.Joint.{joint};
ghost use Rattle.form.specs.Memory.{part};
ghost use Rattle.own_declarations.specs.Sorts.{Ready};
ghost use Rattle.own_declarations.specs.Items.{InputSorts, OwnSorts, OwnRow, is_own, Put, Appended, Roomy};

use super::Own;
use super::sorts::sort_at;
use form_rows::entries::{kind_at, name_at, origin_at, role_at, sort_place};
use form_rows::rows::write_row;
use form_rows::{Row, kinds};
use tape::roles;

// The sorts of the n inputs of the function declared at d, in front.
fn input_sorts(
    library: &[u8],
    text: &[u8],
    work: &[u32],
    t: usize,
    own: Own,
    d: u32,
    n: u32,
) -> [u32; 9]
    requires ready { Ready work.now t own }
    requires n_bound { n ≤ 8 }
    ensures { InputSorts (joint library.now text.now) (part work.now 0 t) work.now own d n result }
{
    let mut sorts = [0; 9];
    for i in 0..n {
        sorts[i as usize] = sort_at(library, text, work, t, own, d as usize + 1 + i as usize);
    }
    sorts
}

// The sorts of the function declared at d, which has n inputs.
fn function_sorts(
    library: &[u8],
    text: &[u8],
    work: &[u32],
    t: usize,
    own: Own,
    d: u32,
    n: u32,
) -> [u32; 9]
    requires ready { Ready work.now t own }
    requires n_bound { n ≤ 8 }
    ensures { OwnSorts (joint library.now text.now) (part work.now 0 t) work.now own d (n + 2) result }
{
    let mut sorts = input_sorts(library, text, work, t, own, d, n);
    sorts[8] = sort_at(library, text, work, t, own, d as usize + 1 + n as usize);
    sorts
}

// The sorts of the declaration at d, which is of the kind.
fn own_sorts(
    library: &[u8],
    text: &[u8],
    work: &[u32],
    t: usize,
    own: Own,
    d: u32,
    kind: u32,
) -> [u32; 9]
    requires ready { Ready work.now t own }
    requires kind_bound { kind ≤ 10 }
    ensures { OwnSorts (joint library.now text.now) (part work.now 0 t) work.now own d kind result }
{
    if kinds::VARIABLE < kind {
        return function_sorts(library, text, work, t, own, d, kind - kinds::FUNCTION);
    }
    let mut sorts = [0; 9];
    if kind == kinds::VARIABLE {
        let i = sort_place(&work[0..t], d);
        sorts[8] = sort_at(library, text, work, t, own, i);
        return sorts;
    }
    sorts
}

// The row of the declaration at d.
pub fn own_row(library: &[u8], text: &[u8], work: &[u32], t: usize, own: Own, d: u32) -> Row
    requires { Ready work.now t own }
    ensures { OwnRow (joint library.now text.now) (part work.now 0 t) work.now own d result }
{
    let kind = kind_at(&work[0..t], d);
    let sorts = own_sorts(library, text, work, t, own, d, kind);
    let name = name_at(&work[0..t], d as usize);
    let origin = origin_at(&work[0..t], d);
    let standing = origin.section;
    Row {
        standing,
        name,
        kind,
        origin,
        sorts,
    }
}

// The row of the declaration at d, stored as row k of the table that starts at `base`.
fn put_own(
    library: &[u8],
    text: &[u8],
    work: &mut [u32],
    t: usize,
    own: Own,
    base: u32,
    k: u32,
    d: u32,
)
    requires { Ready work.old t own }
    ensures { Put (joint library.now text.now) t own base k d work.old work.new }
{
    let row = own_row(library, text, work, t, own, d);
    write_row(work, base, k, row);
}

// Does the entry at i declare an item: a hidden one, or a visible one?
pub fn is_own(tape: &[u32], hidden: bool, i: u32) -> bool
    ensures { result ≡ is_own tape.now hidden i }
{
    let role = role_at(tape, i as usize);
    if hidden {
        if role == roles::VARIABLE {
            return true;
        }
        if role < roles::HIDDEN_SORT {
            return false;
        }
        return role < roles::INPUT;
    }
    if role < roles::PARAMETER_SORT {
        return false;
    }
    role < roles::HIDDEN_SORT
}

// The module's hidden or visible items, in text order, as rows behind the n rows from `base` on. Gives back how many rows there are then.
pub fn own_rows(
    library: &[u8],
    text: &[u8],
    work: &mut [u32],
    t: usize,
    own: Own,
    hidden: bool,
    base: u32,
    n: u32,
) -> u32
    requires ready { Ready work.old t own }
    requires roomy { Roomy t own hidden base n work.old }
    ensures { Appended (joint library.now text.now) t own hidden base n work.old work.new result }
{
    let end = own.end;
    let mut k = n;
    for i in own.from..end {
        if !is_own(&work[0..t], hidden, i) {
            continue;
        }
        put_own(library, text, work, t, own, base, k, i);
        k += 1;
    }
    k
}
