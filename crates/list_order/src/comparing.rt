// Which of two rows of a table comes first.
ghost use Rattle.std.specs.Prelude.{◌≡◌, ◌+◌, ◌*◌, ◌^◌, ◌<◌};
ghost use Rattle.meaning.specs.Written.{visible_order, hidden_order};
ghost use Rattle.meaning.specs.ListingOrder.{place_order};
ghost use Rattle.text_names.specs.Joint.{joint};
ghost use Rattle.form_rows.specs.Rows.{item_of};
ghost use Rattle.form.specs.Forms.{items_at, equation_row_at, equation_size};
ghost use Rattle.form_order.specs.Ordered.{row_item};
ghost use Rattle.list_order.specs.Orders.{standing_word, kind_rank, by_name_then_type, by_kind_then_name, by_origin_then_type, row_place, by_position_then_line, Countable, item_order, Small, row_order};

use super::Table;
use form::EquationRow;
use form::equations::read_equation;
use form_rows::rows::read_row;
use form_rows::{Row, kinds};
use form_sections::Section;
use list_texts::{compare_origins, line_not_after, type_not_after};
use text_names::joint::compare;

// By which order the rows of items are compared: as visible ones; hidden sorts, by their origins alone; hidden items, in whose types the hidden
// sorts in order are `count` rows from `sorts` on. An enum: with a closure `item_rows` would be one function for each.
#[derive(Clone, Copy)]
pub enum Order {
    Visible,
    Sorts,
    Hidden { sorts: u32, count: u32 },
}

// The word of the name by which a section is ordered: a parameter's own, and the blank one for the others.
fn standing_word(s: Section) -> u32
    ensures { result ≡ standing_word s }
{
    match s {
        Section::Export => 0,
        Section::Hidden => 0,
        Section::Parameter(p) => p,
    }
}

// Sorts before functions before variables.
fn rank_of(kind: u32) -> u32
    ensures { result ≡ kind_rank kind }
{
    if kind == kinds::SORT {
        return 0;
    }
    if kind == kinds::VARIABLE {
        return 2;
    }
    1
}

// By name, then by type.
fn named_not_after(library: &[u8], text: &[u8], tape: &[u32], work: &[u32], a: Row, b: Row) -> bool
    ensures { result ≡ by_name_then_type (item_of (joint library.now text.now) tape.now a) (item_of (joint library.now text.now) tape.now b) }
{
    let x = a.name;
    let y = b.name;
    let order = compare(library, text, x, y);
    if order.is_eq() {
        return type_not_after(library, text, tape, work, 0, 0, a, b);
    }
    order.is_lt()
}

// By kind, then by name and type.
fn kind_not_after(library: &[u8], text: &[u8], tape: &[u32], work: &[u32], a: Row, b: Row) -> bool
    ensures { result ≡ by_kind_then_name (item_of (joint library.now text.now) tape.now a) (item_of (joint library.now text.now) tape.now b) }
{
    let k = rank_of(a.kind);
    let l = rank_of(b.kind);
    if k == l {
        return named_not_after(library, text, tape, work, a, b);
    }
    k < l
}

// Does the visible item a come not after b?
pub fn visible_not_after(
    library: &[u8],
    text: &[u8],
    tape: &[u32],
    work: &[u32],
    a: Row,
    b: Row,
) -> bool
    ensures { result ≡ visible_order (item_of (joint library.now text.now) tape.now a) (item_of (joint library.now text.now) tape.now b) }
{
    let s = a.standing;
    let u = b.standing;
    let x = standing_word(s);
    let y = standing_word(u);
    let order = compare(library, text, x, y);
    if order.is_eq() {
        return kind_not_after(library, text, tape, work, a, b);
    }
    order.is_lt()
}

// By origin, then by type, in which the hidden sorts in order are `count` rows from `sorts` on.
fn origin_not_after(
    library: &[u8],
    text: &[u8],
    tape: &[u32],
    work: &[u32],
    sorts: u32,
    count: u32,
    a: Row,
    b: Row,
) -> bool
    requires { count < 2 ^ 31 }
    ensures { result ≡ by_origin_then_type (items_at (joint library.now text.now) tape.now work.now sorts count) (item_of (joint library.now text.now) tape.now a) (item_of (joint library.now text.now) tape.now b) }
{
    let order = compare_origins(library, text, tape, work, a, b);
    if order.is_eq() {
        return type_not_after(library, text, tape, work, sorts, count, a, b);
    }
    order.is_lt()
}

// Does the hidden item a come not after b?
pub fn hidden_not_after(
    library: &[u8],
    text: &[u8],
    tape: &[u32],
    work: &[u32],
    sorts: u32,
    count: u32,
    a: Row,
    b: Row,
) -> bool
    requires { count < 2 ^ 31 }
    ensures { result ≡ hidden_order (items_at (joint library.now text.now) tape.now work.now sorts count) (item_of (joint library.now text.now) tape.now a) (item_of (joint library.now text.now) tape.now b) }
{
    let k = rank_of(a.kind);
    let l = rank_of(b.kind);
    if k == l {
        return origin_not_after(library, text, tape, work, sorts, count, a, b);
    }
    k < l
}

// Equations of one module: by position, then by what they are written as.
fn position_not_after(
    library: &[u8],
    text: &[u8],
    work: &[u32],
    visible: u32,
    nodes: u32,
    a: EquationRow,
    b: EquationRow,
) -> bool
    ensures { result ≡ by_position_then_line (row_place (joint library.now text.now) work.now visible nodes a) (row_place (joint library.now text.now) work.now visible nodes b) }
{
    let x = a.position;
    let y = b.position;
    if x == y {
        return line_not_after(library, text, work, visible, nodes, a, b);
    }
    x < y
}

// Does the equation a come not after b?
pub fn equation_not_after(
    library: &[u8],
    text: &[u8],
    work: &[u32],
    visible: u32,
    nodes: u32,
    a: EquationRow,
    b: EquationRow,
) -> bool
    ensures { result ≡ place_order (row_place (joint library.now text.now) work.now visible nodes a) (row_place (joint library.now text.now) work.now visible nodes b) }
{
    let x = a.home;
    let y = b.home;
    if x == y {
        return position_not_after(library, text, work, visible, nodes, a, b);
    }
    x < y
}

// Does row i of the items at `base` come not after row j, by the order? One function for all three, so that rows of items have no room in the
// frame in which equations are compared.
fn item_rows(
    library: &[u8],
    text: &[u8],
    tape: &[u32],
    work: &[u32],
    by: Order,
    base: u32,
    i: u32,
    j: u32,
) -> bool
    requires { Countable by }
    ensures { result ≡ item_order (joint library.now text.now) tape.now work.now by (row_item (joint library.now text.now) tape.now work.now base i) (row_item (joint library.now text.now) tape.now work.now base j) }
{
    let a = read_row(work, base, i);
    let b = read_row(work, base, j);
    match by {
        Order::Visible => visible_not_after(library, text, tape, work, a, b),
        Order::Sorts => compare_origins(library, text, tape, work, a, b).is_le(),
        Order::Hidden { sorts, count } => {
            hidden_not_after(library, text, tape, work, sorts, count, a, b)
        }
    }
}

// Does row i of the equations at `base` come not after row j?
fn equation_rows(
    library: &[u8],
    text: &[u8],
    work: &[u32],
    visible: u32,
    base: u32,
    nodes: u32,
    i: u32,
    j: u32,
) -> bool
    ensures { result ≡ place_order (row_place (joint library.now text.now) work.now visible nodes (equation_row_at work.now (base + i * equation_size))) (row_place (joint library.now text.now) work.now visible nodes (equation_row_at work.now (base + j * equation_size))) }
{
    let a = read_equation(work, base, i);
    let b = read_equation(work, base, j);
    equation_not_after(library, text, work, visible, nodes, a, b)
}

// Does row i of the table come not after row j?
pub fn row_not_after(
    library: &[u8],
    text: &[u8],
    tape: &[u32],
    work: &[u32],
    table: Table,
    i: u32,
    j: u32,
) -> bool
    requires { Small table }
    ensures { result ≡ row_order (joint library.now text.now) tape.now work.now table i j }
{
    match table {
        Table::Visible(b) => item_rows(library, text, tape, work, Order::Visible, b, i, j),
        Table::Sorts(b) => item_rows(library, text, tape, work, Order::Sorts, b, i, j),
        Table::Hidden(b, sorts, count) => {
            let by = Order::Hidden { sorts, count };
            item_rows(library, text, tape, work, by, b, i, j)
        }
        Table::Equations(v, b, a) => equation_rows(library, text, work, v, b, a, i, j),
    }
}
