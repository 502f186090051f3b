// Sorts and types written to lent output, as document 01's listing has them: a hidden sort is written by its number. The hidden items in
// order are the rows of a table of the memory: `count` of them from `base` on.
#![tactic(auto)]

ghost use Rattle.std.specs.Prelude.{◌≡◌, ◌&&◌, map, ◌+◌, ◌-◌, ◌*◌, ◌^◌, ◌<◌, get_or, take};
ghost use Rattle.meaning.specs.Names.{same, bytes};
ghost use Rattle.meaning.specs.Origins.{same_section, same_origin, hidden_section};
ghost use Rattle.meaning.specs.Written.{between_marks, sort_text, function_type_text, shape_text};
ghost use Rattle.text_names.specs.Word.{name_of};
ghost use Rattle.text_names.specs.Joint.{joint};
ghost use Rattle.form_rows.specs.Entries.{home_at};
ghost use Rattle.form_rows.specs.Rows.{section_of, origin_of, hidden_origin, sort_of, type_of, shape_of, item_of, row_at, row_size};
ghost use Rattle.form.specs.Forms.{items_at};
ghost use Rattle.list_pen.specs.Pen.{pen, written, rows_text};
ghost use Rattle.list_types.specs.Sorts.{sort_number, marked_sort};

use form_comparing::sorts::inputs_of;
use form_rows::entries::{home_at, kind_at, same_name_at, same_word};
use form_rows::rows::read_row;
use form_rows::sections::same_section;
use form_rows::{Origin, Row, kinds};
use form_sections::Section;

// Is o in the hidden section of the module that d stands in?
fn is_hidden_there(library: &[u8], text: &[u8], tape: &[u32], d: u32, o: Origin) -> bool
    ensures { result ≡ (same (name_of (joint library.now text.now) (home_at tape.now d)) (name_of (joint library.now text.now) o.home) && same_section hidden_section (section_of (joint library.now text.now) o.section)) }
{
    let h = home_at(tape, d);
    let k = o.home;
    if same_word(library, text, h, k) {
        let s = o.section;
        return same_section(library, text, Section::Hidden, s);
    }
    false
}

// Is o the origin of the hidden sort declared at d?
fn is_hidden_sort(library: &[u8], text: &[u8], tape: &[u32], d: u32, o: Origin) -> bool
    ensures { result ≡ same_origin (hidden_origin (joint library.now text.now) tape.now d) (origin_of (joint library.now text.now) tape.now o) }
{
    let e = o.place;
    if kind_at(tape, e) == kinds::SORT {
        if same_name_at(library, text, tape, d as usize, e as usize) {
            return is_hidden_there(library, text, tape, d, o);
        }
        return false;
    }
    false
}

// Is row i of the table the hidden sort declared at d?
fn is_sort_row(
    library: &[u8],
    text: &[u8],
    tape: &[u32],
    work: &[u32],
    base: u32,
    i: u32,
    d: u32,
) -> bool
    ensures { result ≡ same_origin (hidden_origin (joint library.now text.now) tape.now d) (item_of (joint library.now text.now) tape.now (row_at work.now (base + i * row_size))).origin }
{
    let row = read_row(work, base, i);
    let o = row.origin;
    is_hidden_sort(library, text, tape, d, o)
}

// The number of the hidden sort declared at d.
fn number_of_sort(
    library: &[u8],
    text: &[u8],
    tape: &[u32],
    work: &[u32],
    base: u32,
    count: u32,
    d: u32,
) -> u32
    requires { count < 2 ^ 31 }
    ensures { result ≡ sort_number (joint library.now text.now) tape.now work.now base count d }
{
    for i in 0..count {
        if is_sort_row(library, text, tape, work, base, i, d) {
            return i + 1;
        }
    }
    count + 1
}

// The sort s.
fn put_sort(
    out: &mut [u8],
    at: usize,
    limit: usize,
    library: &[u8],
    text: &[u8],
    tape: &[u32],
    work: &[u32],
    base: u32,
    count: u32,
    s: u32,
) -> usize
    requires { count < 2 ^ 31 }
    ensures { pen result out.new ≡ written limit (sort_text (items_at (joint library.now text.now) tape.now work.now base count) (sort_of (joint library.now text.now) tape.now s)) (pen at out.old) }
{
    if s % 2 == 0 {
        return list_pen::put_name(out, at, limit, library, text, s / 2);
    }
    let k = number_of_sort(library, text, tape, work, base, count, s / 2);
    list_pen::put_numbered(out, at, limit, k)
}

// One of a row's sorts; 0 past the last.
fn sort_at(sorts: [u32; 9], i: usize) -> u32
    ensures { result ≡ get_or sorts i 0 }
{
    if i < 9 {
        return sorts[i];
    }
    0
}

// One of a row's sorts, after a mark.
fn put_marked(
    out: &mut [u8],
    at: usize,
    limit: usize,
    library: &[u8],
    text: &[u8],
    tape: &[u32],
    work: &[u32],
    base: u32,
    count: u32,
    sorts: [u32; 9],
    i: usize,
) -> usize
    requires { count < 2 ^ 31 }
    ensures { pen result out.new ≡ written limit (marked_sort (joint library.now text.now) tape.now work.now base count sorts i) (pen at out.old) }
{
    let s = sort_at(sorts, i);
    let a = list_pen::put_text(out, at, limit, b"#");
    put_sort(out, a, limit, library, text, tape, work, base, count, s)
}

// A row's sorts from the second up to `end`, each after a mark.
fn put_others(
    out: &mut [u8],
    at: usize,
    limit: usize,
    library: &[u8],
    text: &[u8],
    tape: &[u32],
    work: &[u32],
    base: u32,
    count: u32,
    sorts: [u32; 9],
    end: usize,
) -> usize
    requires { count < 2 ^ 31 }
    ensures { pen result out.new ≡ written limit (rows_text (marked_sort (joint library.now text.now) tape.now work.now base count sorts) 1 (end - 1)) (pen at out.old) }
{
    let mut to = at;
    for i in 1..end {
        to = put_marked(
            out, to, limit, library, text, tape, work, base, count, sorts, i,
        );
    }
    to
}

// The inputs of a function of the kind, with a mark between.
fn put_sorts(
    out: &mut [u8],
    at: usize,
    limit: usize,
    library: &[u8],
    text: &[u8],
    tape: &[u32],
    work: &[u32],
    base: u32,
    count: u32,
    kind: u32,
    sorts: [u32; 9],
) -> usize
    requires { count < 2 ^ 31 }
    ensures { pen result out.new ≡ written limit (between_marks (bytes "#") (map (sort_text (items_at (joint library.now text.now) tape.now work.now base count)) (map (sort_of (joint library.now text.now) tape.now) (take (kind - 2) sorts)))) (pen at out.old) }
{
    let n = inputs_of(kind);
    if 0 < n {
        let a = put_sort(
            out, at, limit, library, text, tape, work, base, count, sorts[0],
        );
        return put_others(
            out, a, limit, library, text, tape, work, base, count, sorts, n,
        );
    }
    at
}

// The type of a function of the kind.
fn put_type(
    out: &mut [u8],
    at: usize,
    limit: usize,
    library: &[u8],
    text: &[u8],
    tape: &[u32],
    work: &[u32],
    base: u32,
    count: u32,
    kind: u32,
    sorts: [u32; 9],
) -> usize
    requires { count < 2 ^ 31 }
    ensures { pen result out.new ≡ written limit (function_type_text (items_at (joint library.now text.now) tape.now work.now base count) (type_of (joint library.now text.now) tape.now (kind - 2) sorts)) (pen at out.old) }
{
    let a = list_pen::put_text(out, at, limit, b":");
    let b = put_sorts(
        out, a, limit, library, text, tape, work, base, count, kind, sorts,
    );
    let c = list_pen::put_text(out, b, limit, b"->");
    put_sort(
        out, c, limit, library, text, tape, work, base, count, sorts[8],
    )
}

// What follows an item's name.
pub fn put_shape(
    out: &mut [u8],
    at: usize,
    limit: usize,
    library: &[u8],
    text: &[u8],
    tape: &[u32],
    work: &[u32],
    base: u32,
    count: u32,
    row: Row,
) -> usize
    requires { count < 2 ^ 31 }
    ensures { pen result out.new ≡ written limit (shape_text (items_at (joint library.now text.now) tape.now work.now base count) (shape_of (joint library.now text.now) tape.now row.kind row.sorts)) (pen at out.old) }
{
    let kind = row.kind;
    let sorts = row.sorts;
    if kind == kinds::SORT {
        return at;
    }
    if kind == kinds::VARIABLE {
        let a = list_pen::put_text(out, at, limit, b":");
        return put_sort(
            out, a, limit, library, text, tape, work, base, count, sorts[8],
        );
    }
    put_type(
        out, at, limit, library, text, tape, work, base, count, kind, sorts,
    )
}
