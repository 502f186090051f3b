// The parts of a listing: a form's visible items, its parameters with theirs, its hidden items by number, and its equations.
#![tactic(auto)]

ghost use Rattle.std.specs.Prelude.{◌≡◌, ◌^◌, ◌<◌};
ghost use Rattle.text_names.specs.Word.{name_of};
ghost use Rattle.text_names.specs.Joint.{joint};
ghost use Rattle.form_rows.specs.Rows.{section_of};
ghost use Rattle.list_pen.specs.Pen.{pen, written, rows_text};
ghost use Rattle.list_parts.specs.Lines.{standing_row, standing_text, formals_text, parameter_row, hidden_row, equation_row, visible_text, hidden_text};

use form::equations::read_equation;
use form::{Form, SLOT_STEP};
use form_rows::entries::word_at;
use form_rows::rows::read_row;
use form_rows::sections::same_section;
use form_sections::Section;
use list_lines::{put_hidden_item, put_line, put_visible_item};
use list_terms::equations::put_equation;

// Row i of a table of visible items, if it stands in the section.
fn put_standing_row(
    out: &mut [u8],
    at: usize,
    limit: usize,
    library: &[u8],
    text: &[u8],
    tape: &[u32],
    work: &[u32],
    base: u32,
    section: Section,
    sort: &[u8],
    function: &[u8],
    i: u32,
) -> usize
    ensures { pen result out.new ≡ written limit (standing_row (joint library.now text.now) tape.now work.now base (section_of (joint library.now text.now) section) sort.now function.now i) (pen at out.old) }
{
    let row = read_row(work, base, i);
    let standing = row.standing;
    if same_section(library, text, section, standing) {
        return put_visible_item(out, at, limit, library, text, tape, row, sort, function);
    }
    at
}

// Of `count` rows those that stand in the section.
fn put_standing(
    out: &mut [u8],
    at: usize,
    limit: usize,
    library: &[u8],
    text: &[u8],
    tape: &[u32],
    work: &[u32],
    base: u32,
    count: u32,
    section: Section,
    sort: &[u8],
    function: &[u8],
) -> usize
    ensures { pen result out.new ≡ written limit (standing_text (joint library.now text.now) tape.now work.now base count (section_of (joint library.now text.now) section) sort.now function.now) (pen at out.old) }
{
    let mut to = at;
    for i in 0..count {
        to = put_standing_row(
            out, to, limit, library, text, tape, work, base, section, sort, function, i,
        );
    }
    to
}

// The parameter p, and the items that stand in it.
fn put_parameter(
    out: &mut [u8],
    at: usize,
    limit: usize,
    library: &[u8],
    text: &[u8],
    tape: &[u32],
    work: &[u32],
    f: Form,
    p: u32,
) -> usize
    ensures { pen result out.new ≡ written limit (formals_text (joint library.now text.now) tape.now work.now f (name_of (joint library.now text.now) p)) (pen at out.old) }
{
    let base = f.visible;
    let count = f.visible_count;
    let a = put_line(out, at, limit, library, text, b"parameter", p);
    put_standing(
        out,
        a,
        limit,
        library,
        text,
        tape,
        work,
        base,
        count,
        Section::Parameter(p),
        b"parameter-sort",
        b"parameter-function",
    )
}

// The parameter at place i of the form's.
fn put_parameter_row(
    out: &mut [u8],
    at: usize,
    limit: usize,
    library: &[u8],
    text: &[u8],
    tape: &[u32],
    work: &[u32],
    f: Form,
    i: u32,
) -> usize
    ensures { pen result out.new ≡ written limit (parameter_row (joint library.now text.now) tape.now work.now f i) (pen at out.old) }
{
    let p = word_at(work, f.parameters as usize + i as usize * SLOT_STEP);
    put_parameter(out, at, limit, library, text, tape, work, f, p)
}

// All parameters of the form.
fn put_parameters(
    out: &mut [u8],
    at: usize,
    limit: usize,
    library: &[u8],
    text: &[u8],
    tape: &[u32],
    work: &[u32],
    f: Form,
) -> usize
    ensures { pen result out.new ≡ written limit (rows_text (parameter_row (joint library.now text.now) tape.now work.now f) 0 f.parameter_count) (pen at out.old) }
{
    let count = f.parameter_count;
    let mut to = at;
    for i in 0..count {
        to = put_parameter_row(out, to, limit, library, text, tape, work, f, i);
    }
    to
}

// What is visible of the form.
pub fn put_visible(
    out: &mut [u8],
    at: usize,
    limit: usize,
    library: &[u8],
    text: &[u8],
    tape: &[u32],
    work: &[u32],
    f: Form,
) -> usize
    ensures { pen result out.new ≡ written limit (visible_text (joint library.now text.now) tape.now work.now f) (pen at out.old) }
{
    let base = f.visible;
    let count = f.visible_count;
    let a = put_standing(
        out,
        at,
        limit,
        library,
        text,
        tape,
        work,
        base,
        count,
        Section::Export,
        b"sort",
        b"function",
    );
    put_parameters(out, a, limit, library, text, tape, work, f)
}

// Row i of the hidden items, which has the number i + 1.
fn put_hidden_row(
    out: &mut [u8],
    at: usize,
    limit: usize,
    library: &[u8],
    text: &[u8],
    tape: &[u32],
    work: &[u32],
    base: u32,
    count: u32,
    i: u32,
) -> usize
    requires count_bound { count < 2 ^ 31 }
    requires i_lt_count { i < count }
    ensures { pen result out.new ≡ written limit (hidden_row (joint library.now text.now) tape.now work.now base count i) (pen at out.old) }
{
    let row = read_row(work, base, i);
    put_hidden_item(
        out,
        at,
        limit,
        library,
        text,
        tape,
        work,
        base,
        count,
        row,
        i + 1,
    )
}

// The hidden items: `count` rows from `base` on.
fn put_hidden_items(
    out: &mut [u8],
    at: usize,
    limit: usize,
    library: &[u8],
    text: &[u8],
    tape: &[u32],
    work: &[u32],
    base: u32,
    count: u32,
) -> usize
    requires { count < 2 ^ 31 }
    ensures { pen result out.new ≡ written limit (rows_text (hidden_row (joint library.now text.now) tape.now work.now base count) 0 count) (pen at out.old) }
{
    let mut to = at;
    for i in 0..count {
        to = put_hidden_row(out, to, limit, library, text, tape, work, base, count, i);
    }
    to
}

// The line of the equation at row i of the form's.
fn put_equation_row(
    out: &mut [u8],
    at: usize,
    limit: usize,
    library: &[u8],
    text: &[u8],
    work: &[u32],
    f: Form,
    i: u32,
) -> usize
    ensures { pen result out.new ≡ written limit (equation_row (joint library.now text.now) work.now f i) (pen at out.old) }
{
    let visible = f.visible;
    let nodes = f.nodes;
    let row = read_equation(work, f.equations, i);
    let a = list_pen::put_text(out, at, limit, b"equation=");
    let b = put_equation(out, a, limit, library, text, work, visible, nodes, row);
    list_pen::put_text(out, b, limit, b"\n")
}

// All equations of the form.
fn put_equations(
    out: &mut [u8],
    at: usize,
    limit: usize,
    library: &[u8],
    text: &[u8],
    work: &[u32],
    f: Form,
) -> usize
    ensures { pen result out.new ≡ written limit (rows_text (equation_row (joint library.now text.now) work.now f) 0 f.equation_count) (pen at out.old) }
{
    let count = f.equation_count;
    let mut to = at;
    for i in 0..count {
        to = put_equation_row(out, to, limit, library, text, work, f, i);
    }
    to
}

// What is hidden of the form.
pub fn put_hidden(
    out: &mut [u8],
    at: usize,
    limit: usize,
    library: &[u8],
    text: &[u8],
    tape: &[u32],
    work: &[u32],
    f: Form,
) -> usize
    requires { f.hidden_count < 2 ^ 31 }
    ensures { pen result out.new ≡ written limit (hidden_text (joint library.now text.now) tape.now work.now f) (pen at out.old) }
{
    let base = f.hidden;
    let count = f.hidden_count;
    let a = put_hidden_items(out, at, limit, library, text, tape, work, base, count);
    put_equations(out, a, limit, library, text, work, f)
}
