// Origins and declarations written to lent output, as document 01's listing has them. What is declared stands on the tape.
#![tactic(auto)]

ghost use Rattle.std.specs.Prelude.{◌≡◌, ◌++◌, ◌-◌};
ghost use Rattle.meaning.specs.Names.{bytes};
ghost use Rattle.meaning.specs.Written.{between_marks, type_text, section_text, declared_text, origin_text};
ghost use Rattle.text_names.specs.Joint.{joint};
ghost use Rattle.form_rows.specs.Entries.{name_at, names_from, arity_at, sort_place, declared_at};
ghost use Rattle.form_rows.specs.Rows.{section_of, origin_of};
ghost use Rattle.list_pen.specs.Pen.{pen, written, rows_text};
ghost use Rattle.list_items.specs.Parts.{marked_name, declared_function_text, variable_type_text, declared_variable_text, declared_sort_text, placed_text};

use form_rows::Origin;
use form_rows::entries::{arity_at, is_function_role, name_at, role_at, sort_place};
use form_sections::Section;
use tape::roles;

// A section.
pub fn put_section(
    out: &mut [u8],
    at: usize,
    limit: usize,
    library: &[u8],
    text: &[u8],
    s: Section,
) -> usize
    ensures { pen result out.new ≡ written limit (section_text (section_of (joint library.now text.now) s)) (pen at out.old) }
{
    match s {
        Section::Export => list_pen::put_text(out, at, limit, b"export"),
        Section::Hidden => list_pen::put_text(out, at, limit, b"hidden"),
        Section::Parameter(p) => {
            let a = list_pen::put_text(out, at, limit, b"parameter ");
            list_pen::put_name(out, a, limit, library, text, p)
        }
    }
}

// The name at place i of the tape, after a mark.
fn put_marked(
    out: &mut [u8],
    at: usize,
    limit: usize,
    library: &[u8],
    text: &[u8],
    tape: &[u32],
    i: usize,
) -> usize
    ensures { pen result out.new ≡ written limit (marked_name (joint library.now text.now) tape.now i) (pen at out.old) }
{
    let a = list_pen::put_text(out, at, limit, b"#");
    list_pen::put_name(out, a, limit, library, text, name_at(tape, i))
}

// The names at places first to end, each after a mark.
fn put_others(
    out: &mut [u8],
    at: usize,
    limit: usize,
    library: &[u8],
    text: &[u8],
    tape: &[u32],
    first: usize,
    end: usize,
) -> usize
    ensures { pen result out.new ≡ written limit (rows_text (marked_name (joint library.now text.now) tape.now) first (end - first)) (pen at out.old) }
{
    let mut to = at;
    for i in first..end {
        to = put_marked(out, to, limit, library, text, tape, i);
    }
    to
}

// The names at places first to end, with a mark between.
pub fn put_names(
    out: &mut [u8],
    at: usize,
    limit: usize,
    library: &[u8],
    text: &[u8],
    tape: &[u32],
    first: usize,
    end: usize,
) -> usize
    ensures { pen result out.new ≡ written limit (between_marks (bytes "#") (names_from (joint library.now text.now) tape.now first (end - first))) (pen at out.old) }
{
    if first < end {
        let a = list_pen::put_name(out, at, limit, library, text, name_at(tape, first));
        return put_others(out, a, limit, library, text, tape, first + 1, end);
    }
    at
}

// A type: the inputs stand at places first to end, and there the output.
pub fn put_type(
    out: &mut [u8],
    at: usize,
    limit: usize,
    library: &[u8],
    text: &[u8],
    tape: &[u32],
    first: usize,
    end: usize,
) -> usize
    ensures { pen result out.new ≡ written limit (type_text (names_from (joint library.now text.now) tape.now first (end - first)) (name_at (joint library.now text.now) tape.now end)) (pen at out.old) }
{
    let a = list_pen::put_text(out, at, limit, b":");
    let b = put_names(out, a, limit, library, text, tape, first, end);
    let c = list_pen::put_text(out, b, limit, b"->");
    list_pen::put_name(out, c, limit, library, text, name_at(tape, end))
}

// The function that is declared at d.
fn put_function(
    out: &mut [u8],
    at: usize,
    limit: usize,
    library: &[u8],
    text: &[u8],
    tape: &[u32],
    d: u32,
) -> usize
    ensures { pen result out.new ≡ written limit (declared_function_text (joint library.now text.now) tape.now d) (pen at out.old) }
{
    let first = d as usize + 1;
    let end = first + arity_at(tape, d) as usize;
    let a = list_pen::put_text(out, at, limit, b"function,");
    let b = list_pen::put_name(out, a, limit, library, text, name_at(tape, d as usize));
    put_type(out, b, limit, library, text, tape, first, end)
}

// The type of the variable that is declared at d.
fn put_variable_type(
    out: &mut [u8],
    at: usize,
    limit: usize,
    library: &[u8],
    text: &[u8],
    tape: &[u32],
    d: u32,
) -> usize
    ensures { pen result out.new ≡ written limit (variable_type_text (joint library.now text.now) tape.now d) (pen at out.old) }
{
    let a = list_pen::put_text(out, at, limit, b":->");
    list_pen::put_name(
        out,
        a,
        limit,
        library,
        text,
        name_at(tape, sort_place(tape, d)),
    )
}

// The variable that is declared at d.
fn put_variable(
    out: &mut [u8],
    at: usize,
    limit: usize,
    library: &[u8],
    text: &[u8],
    tape: &[u32],
    d: u32,
) -> usize
    ensures { pen result out.new ≡ written limit (declared_variable_text (joint library.now text.now) tape.now d) (pen at out.old) }
{
    let a = list_pen::put_text(out, at, limit, b"variable,");
    let b = list_pen::put_name(out, a, limit, library, text, name_at(tape, d as usize));
    put_variable_type(out, b, limit, library, text, tape, d)
}

// The sort that is declared at d.
fn put_sort(
    out: &mut [u8],
    at: usize,
    limit: usize,
    library: &[u8],
    text: &[u8],
    tape: &[u32],
    d: u32,
) -> usize
    ensures { pen result out.new ≡ written limit (declared_sort_text (joint library.now text.now) tape.now d) (pen at out.old) }
{
    let a = list_pen::put_text(out, at, limit, b"sort,");
    list_pen::put_name(out, a, limit, library, text, name_at(tape, d as usize))
}

// What is declared at d.
pub fn put_declared(
    out: &mut [u8],
    at: usize,
    limit: usize,
    library: &[u8],
    text: &[u8],
    tape: &[u32],
    d: u32,
) -> usize
    ensures { pen result out.new ≡ written limit (declared_text (declared_at (joint library.now text.now) tape.now d)) (pen at out.old) }
{
    let role = role_at(tape, d as usize);
    if is_function_role(role) {
        return put_function(out, at, limit, library, text, tape, d);
    }
    if role == roles::VARIABLE {
        return put_variable(out, at, limit, library, text, tape, d);
    }
    put_sort(out, at, limit, library, text, tape, d)
}

// A section, and what is declared at d.
fn put_placed(
    out: &mut [u8],
    at: usize,
    limit: usize,
    library: &[u8],
    text: &[u8],
    tape: &[u32],
    s: Section,
    d: u32,
) -> usize
    ensures { pen result out.new ≡ written limit (placed_text (joint library.now text.now) tape.now s d) (pen at out.old) }
{
    let a = put_section(out, at, limit, library, text, s);
    let b = list_pen::put_text(out, a, limit, b",");
    let c = put_declared(out, b, limit, library, text, tape, d);
    list_pen::put_text(out, c, limit, b"]")
}

// An origin.
pub fn put_origin(
    out: &mut [u8],
    at: usize,
    limit: usize,
    library: &[u8],
    text: &[u8],
    tape: &[u32],
    o: Origin,
) -> usize
    ensures { pen result out.new ≡ written limit (origin_text (origin_of (joint library.now text.now) tape.now o)) (pen at out.old) }
{
    let section = o.section;
    let a = list_pen::put_text(out, at, limit, b"[");
    let b = list_pen::put_name(out, a, limit, library, text, o.home);
    let c = list_pen::put_text(out, b, limit, b",");
    put_placed(out, c, limit, library, text, tape, section, o.place)
}
