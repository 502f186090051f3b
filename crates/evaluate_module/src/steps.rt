// The four steps for one module, in three parts: what it imports, if its own entries are right; its own items joined to that; its equations.
ghost use Rattle.std.specs.Prelude.{◌≡◌, length};
ghost use Rattle.text_names.specs.Joint.{joint};
ghost use Rattle.form.specs.Verdicts.{told};
ghost use Rattle.evaluate_module.specs.Steps.{first_checks, ImportedRoom, Imported};
ghost use Rattle.modules.specs.Modules.{heads_in};
ghost use Rattle.evaluate_module.specs.FirstSteps.{StartedRoom, Started};
ghost use Rattle.evaluate_module.specs.LastSteps.{JoinedRoom, OwnJoined, FinishedRoom, Finished};

use form::{Form, Refusal};
use form_layout::joining_block;
use form_rows::entries::next_with;
use imports::imports::imports_from;
use module_names::names_right;
use modules::{Heads, place_at};
use own_completing::Totals;
use own_completing::complete::{join_equations, join_items};
use own_items::OwnRows;
use own_repeats::once::declared_once;
use tape::roles;
use unite::empty_form;

// Steps 1 and 2 for module k, whose entries stand from `from` up to `end`: 7, 8, 9.
fn first_checks(
    library: &[u8],
    text: &[u8],
    tape: &[u32],
    h: &Heads,
    k: u32,
    from: u32,
    end: u32,
) -> Result<(), Refusal>
    ensures { told (joint library.now text.now) result ≡ first_checks (joint library.now text.now) tape.now (heads_in h.now) k from end }
{
    names_right(library, text, tape, h, k)?;
    declared_once(library, text, tape, from, end)
}

// Step 3, and the union of step 4: what the module whose entries stand from `from` up to `end` imports.
fn imported(
    library: &[u8],
    text: &[u8],
    work: &mut [u32],
    t: usize,
    h: &Heads,
    from: u32,
    end: u32,
) -> Result<Form, Refusal>
    requires { ImportedRoom work.old t (heads_in h.now) from end }
    ensures { Imported (joint library.now text.now) t work.old (heads_in h.now) from end result work.new }
{
    let i = next_with(&work[0..t], roles::IMPORT, from as usize, end as usize);
    let b = joining_block();
    let nothing = empty_form(b);
    imports_from(library, text, work, t, h, 32768, i as u32, Ok(nothing))
}

// Steps 1 to 3, and the union of step 4: what module k imports, if its names are right and each thing is declared once.
pub fn started(
    library: &[u8],
    text: &[u8],
    work: &mut [u32],
    t: usize,
    h: &Heads,
    k: u32,
) -> Result<Form, Refusal>
    requires { StartedRoom work.old t (heads_in h.now) k }
    ensures { Started (joint library.now text.now) t work.old (heads_in h.now) k result work.new }
{
    let from = place_at(h, k as usize);
    let end = place_at(h, k as usize + 1);
    first_checks(library, text, &work[0..t], h, k, from, end)?;
    imported(library, text, work, t, h, from, end)
}

// The own items of module k, unless what came before is refused.
pub fn joined(
    library: &[u8],
    text: &[u8],
    work: &mut [u32],
    t: usize,
    h: &Heads,
    k: u32,
    so_far: Result<Form, Refusal>,
) -> Result<OwnRows, Refusal>
    requires { JoinedRoom (length work.old) t (heads_in h.now) k so_far }
    ensures { OwnJoined (joint library.now text.now) t work.old (heads_in h.now) k so_far result work.new }
{
    let f = so_far?;
    let from = place_at(h, k as usize);
    let end = place_at(h, k as usize + 1);
    join_items(library, text, work, t, from, end, f)
}

// Its equations, and all of step 4 but for the order of the listing, unless what came before is refused.
pub fn finished(
    library: &[u8],
    text: &[u8],
    work: &mut [u32],
    t: usize,
    h: &Heads,
    k: u32,
    so_far: Result<Form, Refusal>,
    rows: Result<OwnRows, Refusal>,
    totals: Totals,
) -> Result<Form, Refusal>
    requires { FinishedRoom (length work.old) t (heads_in h.now) k so_far rows totals }
    ensures { Finished (joint library.now text.now) t work.old (heads_in h.now) k so_far rows totals result work.new }
{
    let counts = rows?;
    let f = so_far?;
    let from = place_at(h, k as usize);
    let end = place_at(h, k as usize + 1);
    join_equations(library, text, work, t, k, from, end, f, counts, totals)
}
