// The import expressions of a module, and their results united. A union's refusal waits until every expression is evaluated.
ghost use Rattle.std.specs.Prelude.{◌≡◌, ◌≤◌, length};
ghost use Rattle.text_names.specs.Joint.{joint};
ghost use Rattle.form_rows.specs.Entries.{name_at};
ghost use Rattle.form.specs.Memory.{part};
ghost use Rattle.modules.specs.Modules.{declared, heads_in};
ghost use Rattle.form_keeping.specs.Environment.{kept_form, number_of};
ghost use Rattle.imports.specs.Expressions.{ImportRoom, ExpressionMade, UnionRoom, UnionMade, ImportsRoom, ImportsMade};

use super::runs::{named_form, run_end};
use super::turns::clauses_from;
use clause::renaming::join;
use form::{Form, Refusal};
use form_layout::joining_block;
use form_rows::entries::role_at;
use modules::Heads;
use tape::roles;

// The normal form that the import expression at i begins with: apart, so that what is lent to find it has no room where clauses are made.
fn imported(library: &[u8], text: &[u8], work: &[u32], t: usize, h: &Heads, i: u32) -> Form
    requires { t ≤ length work.now }
    ensures { result ≡ kept_form work.now (number_of (declared (joint library.now text.now) (part work.now 0 t) (heads_in h.now)) (name_at (joint library.now text.now) (part work.now 0 t) i)) }
{
    named_form(library, text, work, t, h, i as usize)
}

// The import expression at i.
fn expression(
    library: &[u8],
    text: &[u8],
    work: &mut [u32],
    t: usize,
    h: &Heads,
    i: u32,
) -> Result<Form, Refusal>
    requires { ImportRoom work.old t (heads_in h.now) i }
    ensures { ExpressionMade (joint library.now text.now) t work.old (heads_in h.now) i result work.new }
{
    let g = imported(library, text, work, t, h, i);
    clauses_from(library, text, work, t, h, 32768, i + 1, g, true)
}

// What is united so far, with g: unless a union was refused.
fn united_with(
    library: &[u8],
    text: &[u8],
    work: &mut [u32],
    t: usize,
    g: Form,
    so_far: Result<Form, Refusal>,
) -> Result<Form, Refusal>
    requires { UnionRoom (length work.old) t g so_far }
    ensures { UnionMade (joint library.now text.now) t work.old g so_far result work.new }
{
    let f = so_far?;
    let b = joining_block();
    join(library, text, work, t, g, f, b)
}

// The import expressions from i on, united with what there is so far.
pub fn imports_from(
    library: &[u8],
    text: &[u8],
    work: &mut [u32],
    t: usize,
    h: &Heads,
    left: u32,
    i: u32,
    so_far: Result<Form, Refusal>,
) -> Result<Form, Refusal>
    requires { ImportsRoom work.old t (heads_in h.now) i so_far }
    ensures { ImportsMade (joint library.now text.now) t work.old (heads_in h.now) left i so_far result work.new }
{
    let mut at = i;
    let mut made = so_far;
    for n in (0..left).rev() {
        if role_at(&work[0..t], at as usize) == roles::IMPORT {
            let end = run_end(&work[0..t], roles::RENAMING, at + 1);
            let g = expression(library, text, work, t, h, at)?;
            made = united_with(library, text, work, t, g, made);
            at = end;
        } else {
            return made;
        }
    }
    made
}
