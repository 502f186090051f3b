// A normal form copied in the order of its listing: parameters, visible items, hidden items with the hidden sorts in order first, and
// equations, whose nodes follow their items.
#![tactic(auto)]

ghost use Rattle.std.specs.Prelude.{◌≡◌, ◌+◌, ◌*◌, ◌≤◌, ◌<◌, length};
ghost use Rattle.meaning.specs.Written.{visible_order, hidden_order};
ghost use Rattle.text_names.specs.Joint.{joint};
ghost use Rattle.form.specs.Memory.{part};
ghost use Rattle.form.specs.Forms.{items_at, slot_size};
ghost use Rattle.list_order.specs.Copying.{SortRoom, NotedRoom};
ghost use Rattle.list_keeping.specs.Kept.{ParametersPut, ItemsPut, sorts_in_order, KeepRoom, order_place, ItemsKept, EquationsKept};
ghost use Rattle.list_keeping.specs.Nodes.{kept_form};
ghost use Rattle.list_keeping.specs.Keeps.{Keeps};

use form::{EQUATION_SIZE, Form, SLOT_SIZE};
use form_order::order_names;
use form_rows::ROW_SIZE;
use list_order::Table;
use list_order::copying::{copy_rows, put_table, sort_rows};
use unite_nodes::copy_nodes;

// n parameters at `from`, in order, to `to`.
fn put_parameters(
    library: &[u8],
    text: &[u8],
    work: &mut [u32],
    from: u32,
    n: u32,
    order: u32,
    to: u32,
)
    requires { SortRoom (length work.old) 0 from n order to slot_size }
    ensures { ParametersPut (joint library.now text.now) from n order to work.old work.new }
{
    order_names(library, text, work, from, SLOT_SIZE, n, order);
    copy_rows(work, from, n, order, n, to, SLOT_SIZE);
}

// n visible items at `from`, in order, to `to`.
fn put_visible(
    library: &[u8],
    text: &[u8],
    work: &mut [u32],
    t: usize,
    from: u32,
    n: u32,
    order: u32,
    to: u32,
    notes: u32,
)
    requires { NotedRoom (length work.old) t from n order to notes }
    ensures { ItemsPut (joint library.now text.now) t visible_order from n order to notes work.old work.new }
{
    put_table(
        library,
        text,
        work,
        t,
        Table::Visible(from),
        from,
        n,
        order,
        to,
        notes,
    );
}

// n hidden items at `from`, in order, to `to`: there the sorts in order stand first, since types are written by their numbers.
fn put_hidden(
    library: &[u8],
    text: &[u8],
    work: &mut [u32],
    t: usize,
    from: u32,
    n: u32,
    order: u32,
    to: u32,
    notes: u32,
)
    requires noted_room { NotedRoom (length work.old) t from n order to notes }
    requires t_le_to { t ≤ to }
    requires n_bound { n ≤ 1073741824 }
    ensures { ItemsPut (joint library.now text.now) t (hidden_order (sorts_in_order (items_at (joint library.now text.now) (part work.old 0 t) work.old from n))) from n order to notes work.old work.new }
{
    let m = sort_rows(
        library,
        text,
        work,
        t,
        Table::Sorts(from),
        from,
        n,
        order,
        to,
        ROW_SIZE,
    );
    put_table(
        library,
        text,
        work,
        t,
        Table::Hidden(from, to, m),
        from,
        n,
        order,
        to,
        notes,
    );
}

// The items of f in order to the places of k. Notes of where they went stand from p on, of visible items and then of hidden ones.
fn keep_items(
    library: &[u8],
    text: &[u8],
    work: &mut [u32],
    t: usize,
    f: Form,
    k: Form,
    p: u32,
    order: u32,
)
    requires { KeepRoom (length work.old) t f k p order }
    ensures { ItemsKept (joint library.now text.now) t f k p order work.old work.new }
{
    let hidden_notes = p + f.visible_count;
    put_parameters(
        library,
        text,
        work,
        f.parameters,
        f.parameter_count,
        order,
        k.parameters,
    );
    put_visible(
        library,
        text,
        work,
        t,
        f.visible,
        f.visible_count,
        order,
        k.visible,
        p,
    );
    put_hidden(
        library,
        text,
        work,
        t,
        f.hidden,
        f.hidden_count,
        order,
        k.hidden,
        hidden_notes,
    );
}

// The equations of f in order to the places of k, their nodes through the notes.
fn keep_equations(
    library: &[u8],
    text: &[u8],
    work: &mut [u32],
    t: usize,
    f: Form,
    k: Form,
    p: u32,
    order: u32,
)
    requires { KeepRoom (length work.old) t f k p order }
    ensures { EquationsKept (joint library.now text.now) t f k p order work.old work.new }
{
    let hidden_notes = p + f.visible_count;
    let visible = k.visible;
    let nodes = k.nodes;
    let from = f.equations;
    let n = f.equation_count;
    copy_nodes(work, p, hidden_notes, f.nodes, 0, nodes, 0, f.node_count);
    sort_rows(
        library,
        text,
        work,
        t,
        Table::Equations(visible, from, nodes),
        from,
        n,
        order,
        k.equations,
        EQUATION_SIZE,
    );
}

// Where the order table stands.
fn order_place(f: Form, p: u32) -> u32
    requires { p + (f.visible_count + f.hidden_count) ≤ 1073741824 }
    ensures { result ≡ order_place f p }
{
    p + (f.visible_count + f.hidden_count)
}

// What f has, at the places of k.
fn kept_form(f: Form, k: Form) -> Form
    ensures { result ≡ kept_form f k }
{
    Form {
        parameters: k.parameters,
        visible: k.visible,
        hidden: k.hidden,
        equations: k.equations,
        nodes: k.nodes,
        ..f
    }
}

// The form f in the order of its listing, at the places of k; what is behind p is written over.
pub fn keep_in_order(
    library: &[u8],
    text: &[u8],
    work: &mut [u32],
    t: usize,
    f: Form,
    k: Form,
    p: u32,
) -> Form
    requires { KeepRoom (length work.old) t f k p (order_place f p) }
    ensures { Keeps (joint library.now text.now) t f k p result work.old work.new }
{
    let order = order_place(f, p);
    keep_items(library, text, work, t, f, k, p, order);
    keep_equations(library, text, work, t, f, k, p, order);
    kept_form(f, k)
}
