// A module's normal form put in order and kept: its parts from the cursor on, its places in the module's row of the table.
#![tactic(auto)]

ghost use Rattle.std.specs.Prelude.{◌≡◌, ◌+◌, ◌*◌, ◌≤◌, length};
ghost use Rattle.std.proofs.lemmas.List.Edits.{sets};
ghost use Rattle.text_names.specs.Joint.{joint};
ghost use Rattle.form.specs.Forms.{form_size};
ghost use Rattle.form_keeping.specs.Keeping.{form_words};
ghost use Rattle.form_layout.specs.Layout.{table_start};
ghost use Rattle.list_keeping.specs.Kept.{KeepRoom, order_place};
ghost use Rattle.list_keeping.specs.Keeps.{Keeps};
ghost use Rattle.evaluate_storing.specs.Places.{form_space, place_form, scratch_start, StoreRoom};
ghost use Rattle.evaluate_storing.specs.Storing.{Stored};

use form::{EQUATION_SIZE, Form, SLOT_SIZE};
use form_keeping::write_form;
use form_layout::table_start;
use form_rows::ROW_SIZE;
use list_keeping::keep_in_order;

// The words that what f has takes.
pub fn form_space(f: Form) -> u32
    requires { form_space f ≤ 1073741824 }
    ensures { result ≡ form_space f }
{
    f.parameter_count * SLOT_SIZE
        + f.visible_count * ROW_SIZE
        + f.hidden_count * ROW_SIZE
        + f.equation_count * EQUATION_SIZE
        + f.node_count
}

// Where the next form may begin.
fn next_cursor(f: Form, cursor: u32) -> u32
    requires { cursor + form_space f ≤ 1073741824 }
    ensures { result ≡ cursor + form_space f }
{
    let space = form_space(f);
    cursor + space
}

// What f has, in places one behind the other from the cursor on.
fn place_form(f: Form, cursor: u32) -> Form
    requires { cursor + form_space f ≤ 1073741824 }
    ensures { result ≡ place_form f cursor }
{
    let visible = cursor + f.parameter_count * SLOT_SIZE;
    let hidden = visible + f.visible_count * ROW_SIZE;
    let equations = hidden + f.hidden_count * ROW_SIZE;
    let nodes = equations + f.equation_count * EQUATION_SIZE;
    Form {
        parameters: cursor,
        parameter_count: f.parameter_count,
        visible,
        visible_count: f.visible_count,
        hidden,
        hidden_count: f.hidden_count,
        equations,
        equation_count: f.equation_count,
        nodes,
        node_count: f.node_count,
    }
}

// Where notes and order table stand while a form is put in order: behind the table of kept forms.
fn scratch_start() -> u32
    ensures { result ≡ scratch_start }
{
    1025672
}

// The form f in order, from the cursor on.
fn keep_at(library: &[u8], text: &[u8], work: &mut [u32], t: usize, f: Form, cursor: u32) -> Form
    requires f_bound { cursor + form_space f ≤ 1073741824 }
    requires keep_room { KeepRoom (length work.old) t f (place_form f cursor) scratch_start (order_place f scratch_start) }
    ensures { Keeps (joint library.now text.now) t f (place_form f cursor) scratch_start result work.old work.new }
{
    let place = place_form(f, cursor);
    let scratch = scratch_start();
    keep_in_order(library, text, work, t, f, place, scratch)
}

// The normal form of module k is at f.
fn write_row(work: &mut [u32], k: u32, f: Form)
    ensures { work.new ≡ sets work.old (table_start + k * form_size) (form_words f) }
{
    let table = table_start();
    write_form(work, table, k, f);
}

// The form f in order from the cursor on, as the normal form of module k; and where the next one may begin.
pub fn store(
    library: &[u8],
    text: &[u8],
    work: &mut [u32],
    t: usize,
    k: u32,
    f: Form,
    cursor: u32,
) -> u32
    requires { StoreRoom (length work.old) t k f cursor }
    ensures { Stored (joint library.now text.now) t k f cursor result work.old work.new }
{
    let kept = keep_at(library, text, work, t, f, cursor);
    write_row(work, k, kept);
    next_cursor(f, cursor)
}
