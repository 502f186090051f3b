// Single lines `key=value` of a listing, and the two lines of an item: what it is, and its origin.
#![tactic(auto)]

ghost use Rattle.std.specs.Prelude.{◌≡◌, [], ◌^◌, ◌<◌};
ghost use Rattle.meaning.specs.Names.{bytes};
ghost use Rattle.meaning.specs.Written.{numbered};
ghost use Rattle.text_names.specs.Word.{name_of};
ghost use Rattle.text_names.specs.Joint.{joint};
ghost use Rattle.form_rows.specs.Rows.{origin_of, item_of};
ghost use Rattle.form.specs.Forms.{items_at};
ghost use Rattle.list_pen.specs.Pen.{pen, written};
ghost use Rattle.list_lines.specs.Lines.{line_of, origin_line_of, key_of, rest_of, item_text};

use form_rows::{Origin, Row, kinds};
use list_items::put_origin;
use list_types::put_shape;

// A line whose value is a name.
pub fn put_line(
    out: &mut [u8],
    at: usize,
    limit: usize,
    library: &[u8],
    text: &[u8],
    key: &[u8],
    w: u32,
) -> usize
    ensures { pen result out.new ≡ written limit (line_of key.now (name_of (joint library.now text.now) w)) (pen at out.old) }
{
    let a = list_pen::put_text(out, at, limit, key);
    let b = list_pen::put_text(out, a, limit, b"=");
    let c = list_pen::put_name(out, b, limit, library, text, w);
    list_pen::put_text(out, c, limit, b"\n")
}

// The line of an origin.
pub fn put_origin_line(
    out: &mut [u8],
    at: usize,
    limit: usize,
    library: &[u8],
    text: &[u8],
    tape: &[u32],
    o: Origin,
) -> usize
    ensures { pen result out.new ≡ written limit (origin_line_of (origin_of (joint library.now text.now) tape.now o)) (pen at out.old) }
{
    let a = list_pen::put_text(out, at, limit, b"origin");
    let b = list_pen::put_text(out, a, limit, b"=");
    let c = put_origin(out, b, limit, library, text, tape, o);
    list_pen::put_text(out, c, limit, b"\n")
}

// The key of an item of the kind: `sort` and `function` are those of sorts and of functions.
fn put_key(
    out: &mut [u8],
    at: usize,
    limit: usize,
    kind: u32,
    sort: &[u8],
    function: &[u8],
) -> usize
    ensures { pen result out.new ≡ written limit (key_of kind sort.now function.now) (pen at out.old) }
{
    if kind == kinds::SORT {
        return list_pen::put_text(out, at, limit, sort);
    }
    if kind == kinds::VARIABLE {
        return list_pen::put_text(out, at, limit, b"variable");
    }
    list_pen::put_text(out, at, limit, function)
}

// What follows an item's name. The hidden items in order are `count` rows from `base` on.
fn put_rest(
    out: &mut [u8],
    at: usize,
    limit: usize,
    library: &[u8],
    text: &[u8],
    tape: &[u32],
    work: &[u32],
    base: u32,
    count: u32,
    row: Row,
) -> usize
    requires { count < 2 ^ 31 }
    ensures { pen result out.new ≡ written limit (rest_of (items_at (joint library.now text.now) tape.now work.now base count) (item_of (joint library.now text.now) tape.now row)) (pen at out.old) }
{
    let origin = row.origin;
    let a = put_shape(out, at, limit, library, text, tape, work, base, count, row);
    let b = list_pen::put_text(out, a, limit, b"\n");
    put_origin_line(out, b, limit, library, text, tape, origin)
}

// The lines of a visible item, in whose type there is no hidden sort to be numbered.
pub fn put_visible_item(
    out: &mut [u8],
    at: usize,
    limit: usize,
    library: &[u8],
    text: &[u8],
    tape: &[u32],
    row: Row,
    sort: &[u8],
    function: &[u8],
) -> usize
    ensures { pen result out.new ≡ written limit (item_text sort.now function.now (name_of (joint library.now text.now) row.name) [] (item_of (joint library.now text.now) tape.now row)) (pen at out.old) }
{
    let kind = row.kind;
    let name = row.name;
    let a = put_key(out, at, limit, kind, sort, function);
    let b = list_pen::put_text(out, a, limit, b"=");
    let c = list_pen::put_name(out, b, limit, library, text, name);
    put_rest(out, c, limit, library, text, tape, tape, 0, 0, row)
}

// The lines of a hidden item, which is written by its number.
pub fn put_hidden_item(
    out: &mut [u8],
    at: usize,
    limit: usize,
    library: &[u8],
    text: &[u8],
    tape: &[u32],
    work: &[u32],
    base: u32,
    count: u32,
    row: Row,
    number: u32,
) -> usize
    requires { count < 2 ^ 31 }
    ensures { pen result out.new ≡ written limit (item_text (bytes "hidden-sort") (bytes "hidden-function") (numbered number) (items_at (joint library.now text.now) tape.now work.now base count) (item_of (joint library.now text.now) tape.now row)) (pen at out.old) }
{
    let kind = row.kind;
    let a = put_key(out, at, limit, kind, b"hidden-sort", b"hidden-function");
    let b = list_pen::put_text(out, a, limit, b"=");
    let c = list_pen::put_numbered(out, b, limit, number);
    put_rest(out, c, limit, library, text, tape, work, base, count, row)
}
