// Where clauses and import expressions end on the tape, and the normal form of a module that one names.
ghost use Rattle.std.specs.Prelude.{◌≡◌, ◌-◌, ◌≤◌, length};
ghost use Rattle.text_names.specs.Joint.{joint};
ghost use Rattle.form_rows.specs.Entries.{name_at};
ghost use Rattle.form.specs.Memory.{part};
ghost use Rattle.modules.specs.Modules.{declared, heads_in};
ghost use Rattle.form_keeping.specs.Environment.{kept_form, number_of};
ghost use Rattle.imports.specs.Spelling.{runs, run_end};

use form::Form;
use form_keeping::read_form;
use form_layout::table_start;
use form_rows::entries::{name_at, role_at};
use modules::{Heads, find_number};
use tape::roles;

// Is the role from `least` up to 16?
fn is_of_run(least: u32, role: u32) -> bool
    ensures { result ≡ runs least role }
{
    if role < least {
        return false;
    }
    role < roles::VARIABLE
}

// The first place from i on whose role is not of the run: from 14 up it ends a clause, from 12 up an import expression.
pub fn run_end(tape: &[u32], least: u32, i: u32) -> u32
    requires { length tape.now ≤ 65536 }
    ensures { result ≡ run_end least tape.now i (length tape.now - i) }
{
    let end = tape.len() as u32;
    for j in i..end {
        if !is_of_run(least, role_at(tape, j as usize)) {
            return j;
        }
    }
    i.max(end)
}

// The normal form of the module that is named at i.
pub fn named_form(library: &[u8], text: &[u8], work: &[u32], t: usize, h: &Heads, i: usize) -> Form
    requires { t ≤ length work.now }
    ensures { result ≡ kept_form work.now (number_of (declared (joint library.now text.now) (part work.now 0 t) (heads_in h.now)) (name_at (joint library.now text.now) (part work.now 0 t) i)) }
{
    let w = name_at(&work[0..t], i);
    let k = find_number(library, text, &work[0..t], h, w);
    let table = table_start();
    read_form(work, table, k)
}
