// Origins, types and equations compared by the bytes that they are written as: part by part, of fewer bytes than a name may have, so that no
// more of a line than such a part is ever in memory.
#![tactic(auto)]

ghost use Rattle.std.specs.Prelude.{◌≡◌, ◌-◌, ◌^◌, ◌<◌, ◌≤◌, min, length, take};
ghost use Rattle.std.specs.Ordering.{ordering_index};
ghost use Rattle.meaning.specs.Names.{bytes_not_after};
ghost use Rattle.meaning.specs.Written.{origin_text, shape_text};
ghost use Rattle.text_runs.specs.Orders.{bytes_compared};
ghost use Rattle.text_runs.specs.Codes.{seen_index};
ghost use Rattle.text_names.specs.Joint.{joint};
ghost use Rattle.list_pen.specs.Pen.{pen, written};
ghost use Rattle.form_rows.specs.Rows.{origin_of, shape_of};
ghost use Rattle.form.specs.Forms.{items_at};
ghost use Rattle.list_terms.specs.Terms.{equation_at};
ghost use Rattle.list_texts.specs.Parts.{line_size, facet_text, Countable, PartOf, parts_compared};

use form::EquationRow;
use form_rows::Row;
use list_items::put_origin;
use list_terms::equations::put_equation;
use list_types::put_shape;
use std::cmp::Ordering;
use text_names::compare_bytes;

// A part of a written line: the first `size` bytes. An array with its size beside, since there is no heap, and both parts that are compared
// are in memory at once.
#[derive(Clone, Copy)]
pub struct Part {
    pub bytes: [u8; 32],
    pub size: usize,
}

// What of two items is compared as it is written: their origins; or what follows their names, where the hidden sorts in order are `count` rows
// from `base` on. An enum: a closure that writes would have to promise in its own clause what `facet_text` says of both.
#[derive(Clone, Copy)]
pub enum Facet {
    Origin,
    Shape { base: u32, count: u32 },
}

// What the facet of an item is written as, up to the limit.
fn put_facet(
    out: &mut [u8],
    limit: usize,
    library: &[u8],
    text: &[u8],
    tape: &[u32],
    work: &[u32],
    by: Facet,
    row: Row,
) -> usize
    requires { Countable by }
    ensures { pen result out.new ≡ written limit (facet_text (joint library.now text.now) tape.now work.now by row) (pen 0 out.old) }
{
    match by {
        Facet::Origin => put_origin(out, 0, limit, library, text, tape, row.origin),
        Facet::Shape { base, count } => {
            put_shape(out, 0, limit, library, text, tape, work, base, count, row)
        }
    }
}

// How many bytes a part has that begins at `before`, where the line was written up to `end`.
fn size_of_part(before: usize, end: usize) -> usize
    ensures { result ≡ min (end - before) 32 }
{
    end.saturating_sub(before).min(32)
}

// The part of an item's facet that begins at `before`.
fn item_part(
    library: &[u8],
    text: &[u8],
    tape: &[u32],
    work: &[u32],
    by: Facet,
    row: Row,
    before: usize,
) -> Part
    requires before_le_line_size { before ≤ line_size }
    requires countable { Countable by }
    ensures { PartOf result before (facet_text (joint library.now text.now) tape.now work.now by row) }
{
    let mut bytes = [0; 32];
    let end = put_facet(&mut bytes, before + 33, library, text, tape, work, by, row);
    let size = size_of_part(before, end);
    Part { bytes, size }
}

// The part of an equation that begins at `before`.
fn equation_part(
    library: &[u8],
    text: &[u8],
    work: &[u32],
    visible: u32,
    nodes: u32,
    row: EquationRow,
    before: usize,
) -> Part
    requires { before ≤ line_size }
    ensures { PartOf result before (equation_at (joint library.now text.now) work.now visible nodes row) }
{
    let mut bytes = [0; 32];
    let end = put_equation(
        &mut bytes,
        0,
        before + 33,
        library,
        text,
        work,
        visible,
        nodes,
        row,
    );
    let size = size_of_part(before, end);
    Part { bytes, size }
}

// Which of two parts comes first, `Equal` if they are the same; none if both are full and the same.
fn compare_parts(a: Part, b: Part) -> Option<Ordering>
    requires size_in_bounds { a.size ≤ length a.bytes }
    requires size_in_bounds_2 { b.size ≤ length b.bytes }
    ensures { seen_index result ≡ parts_compared a.size (take a.size a.bytes) (take b.size b.bytes) }
{
    let x = a.bytes;
    let y = b.bytes;
    let n = a.size;
    let m = b.size;
    let order = compare_bytes(&x[0..n], &y[0..m]);
    if n == 32 {
        if order.is_eq() {
            return None;
        }
    }
    Some(order)
}

// Which of the facets of a and b comes first as they are written, `Equal` if they are written alike: up to more bytes than any has.
fn compare_items(
    library: &[u8],
    text: &[u8],
    tape: &[u32],
    work: &[u32],
    by: Facet,
    a: Row,
    b: Row,
) -> Ordering
    requires { Countable by }
    ensures { ordering_index result ≡ bytes_compared (take line_size (facet_text (joint library.now text.now) tape.now work.now by a)) (take line_size (facet_text (joint library.now text.now) tape.now work.now by b)) }
{
    for i in 0..128 {
        let x = item_part(library, text, tape, work, by, a, i * 32);
        let y = item_part(library, text, tape, work, by, b, i * 32);
        if let Some(order) = compare_parts(x, y) {
            return order;
        }
    }
    Ordering::Equal
}

// Which of a and b comes first as they are written, `Equal` if they are written alike: up to more bytes than any equation has.
fn compare_equations(
    library: &[u8],
    text: &[u8],
    work: &[u32],
    visible: u32,
    nodes: u32,
    a: EquationRow,
    b: EquationRow,
) -> Ordering
    ensures { ordering_index result ≡ bytes_compared (take line_size (equation_at (joint library.now text.now) work.now visible nodes a)) (take line_size (equation_at (joint library.now text.now) work.now visible nodes b)) }
{
    for i in 0..128 {
        let x = equation_part(library, text, work, visible, nodes, a, i * 32);
        let y = equation_part(library, text, work, visible, nodes, b, i * 32);
        if let Some(order) = compare_parts(x, y) {
            return order;
        }
    }
    Ordering::Equal
}

// Which of the origins of a and b comes first as they are written, `Equal` if they are written alike.
pub fn compare_origins(
    library: &[u8],
    text: &[u8],
    tape: &[u32],
    work: &[u32],
    a: Row,
    b: Row,
) -> Ordering
    ensures { ordering_index result ≡ bytes_compared (origin_text (origin_of (joint library.now text.now) tape.now a.origin)) (origin_text (origin_of (joint library.now text.now) tape.now b.origin)) }
{
    compare_items(library, text, tape, work, Facet::Origin, a, b)
}

// Does what follows a's name come not after what follows b's? The hidden sorts in order are `count` rows from `base` on.
pub fn type_not_after(
    library: &[u8],
    text: &[u8],
    tape: &[u32],
    work: &[u32],
    base: u32,
    count: u32,
    a: Row,
    b: Row,
) -> bool
    requires { count < 2 ^ 31 }
    ensures { result ≡ bytes_not_after (shape_text (items_at (joint library.now text.now) tape.now work.now base count) (shape_of (joint library.now text.now) tape.now a.kind a.sorts)) (shape_text (items_at (joint library.now text.now) tape.now work.now base count) (shape_of (joint library.now text.now) tape.now b.kind b.sorts)) }
{
    let by = Facet::Shape { base, count };
    compare_items(library, text, tape, work, by, a, b).is_le()
}

// Does the equation a come not after b by what they are written as, up to more bytes than any equation has?
pub fn line_not_after(
    library: &[u8],
    text: &[u8],
    work: &[u32],
    visible: u32,
    nodes: u32,
    a: EquationRow,
    b: EquationRow,
) -> bool
    ensures { result ≡ bytes_not_after (take line_size (equation_at (joint library.now text.now) work.now visible nodes a)) (take line_size (equation_at (joint library.now text.now) work.now visible nodes b)) }
{
    compare_equations(library, text, work, visible, nodes, a, b).is_le()
}
