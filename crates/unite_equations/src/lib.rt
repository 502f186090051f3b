// The equations of one normal form absorbed into another, in one working memory: their nodes go through notes of where the items went,
// and an equation that is there already is not added.
#![tactic(auto)]

ghost use Rattle.std.specs.Prelude.{◌≡◌, ◌+◌, ◌*◌, ◌≤◌, ◌<◌, length};
ghost use Rattle.text_names.specs.Joint.{joint};
ghost use Rattle.form.specs.Forms.{equation_row_at, equation_size};
ghost use Rattle.unite_nodes.specs.Joined.{same_equation, has_equation, with_counts, out, settled, joined_row, joined};

use form::equations::{read_equation, write_equation};
use form::{EquationRow, Form};
use unite_nodes::{Notes, copy_nodes, same_nodes};

// Is q, whose nodes stand behind those of f, the equation r of f?
fn same_equation(
    library: &[u8],
    text: &[u8],
    work: &[u32],
    t: usize,
    f: Form,
    q: EquationRow,
    r: EquationRow,
) -> bool
    requires { t ≤ length work.now }
    ensures { result ≡ same_equation (joint library.now text.now) t work.now f q r }
{
    if q.home == r.home {
        if q.position == r.position {
            if q.count == r.count {
                let visible = f.visible;
                let hidden = f.hidden;
                let base = f.nodes;
                let start = r.start;
                let used = f.node_count;
                let c = q.count;
                return same_nodes(
                    library, text, work, t, visible, hidden, base, used, start, c,
                );
            }
            return false;
        }
        return false;
    }
    false
}

// Is it row i of f?
fn is_equation(
    library: &[u8],
    text: &[u8],
    work: &[u32],
    t: usize,
    f: Form,
    q: EquationRow,
    i: u32,
) -> bool
    requires { t ≤ length work.now }
    ensures { result ≡ same_equation (joint library.now text.now) t work.now f q (equation_row_at work.now (f.equations + i * equation_size)) }
{
    let base = f.equations;
    let r = read_equation(work, base, i);
    same_equation(library, text, work, t, f, q, r)
}

// Is it one of the first n rows of f?
fn has_equation(
    library: &[u8],
    text: &[u8],
    work: &[u32],
    t: usize,
    f: Form,
    q: EquationRow,
    n: u32,
) -> bool
    requires { t ≤ length work.now }
    ensures { result ≡ has_equation (joint library.now text.now) t work.now f q 0 n }
{
    for i in 0..n {
        if is_equation(library, text, work, t, f, q, i) {
            return true;
        }
    }
    false
}

// The form with other numbers of equations and of nodes.
fn with_counts(f: Form, equations: u32, nodes: u32) -> Form
    ensures { result ≡ with_counts f equations nodes }
{
    Form {
        equation_count: equations,
        node_count: nodes,
        ..f
    }
}

// q, whose nodes stand behind those of f: dropped where it is there, else a row more.
fn settle(
    library: &[u8],
    text: &[u8],
    work: &mut [u32],
    t: usize,
    f: Form,
    q: EquationRow,
    rows: u32,
    nodes: u32,
) -> Form
    requires t_in_bounds { t ≤ length work.old }
    requires equation_count_bound { f.equation_count < rows }
    requires count_bound { f.node_count + q.count ≤ nodes }
    ensures { out result work.new ≡ settled (joint library.now text.now) t work.old f q }
{
    let n = f.equation_count;
    let used = f.node_count;
    let count = q.count;
    if has_equation(library, text, work, t, f, q, n) {
        return f;
    }
    let base = f.equations;
    write_equation(work, base, n, q, used);
    with_counts(f, n + 1, used + count)
}

// The equation q of g absorbed into f.
fn absorb_row(
    library: &[u8],
    text: &[u8],
    work: &mut [u32],
    t: usize,
    g: Form,
    q: EquationRow,
    o: Notes,
    f: Form,
) -> Form
    requires { t ≤ length work.old }
    ensures { out result work.new ≡ joined_row (joint library.now text.now) t work.old g q o f }
{
    let rows = o.equation_room;
    let nodes = o.node_room;
    if f.equation_count < rows {
        let used = f.node_count;
        if (nodes as usize) < used as usize + q.count as usize {
            return f;
        }
        let visible = o.visible;
        let hidden = o.hidden;
        let source = g.nodes;
        let start = q.start;
        let base = f.nodes;
        let c = q.count;
        copy_nodes(work, visible, hidden, source, start, base, used, c);
        return settle(library, text, work, t, f, q, rows, nodes);
    }
    f
}

// Row k of g absorbed into f.
fn absorb_equation(
    library: &[u8],
    text: &[u8],
    work: &mut [u32],
    t: usize,
    g: Form,
    k: u32,
    o: Notes,
    f: Form,
) -> Form
    requires { t ≤ length work.old }
    ensures { out result work.new ≡ joined_row (joint library.now text.now) t work.old g (equation_row_at work.old (g.equations + k * equation_size)) o f }
{
    let base = g.equations;
    let q = read_equation(work, base, k);
    absorb_row(library, text, work, t, g, q, o, f)
}

// The first n equations of g absorbed into f.
fn absorb_first(
    library: &[u8],
    text: &[u8],
    work: &mut [u32],
    t: usize,
    g: Form,
    n: u32,
    o: Notes,
    f: Form,
) -> Form
    requires { t ≤ length work.old }
    ensures { out result work.new ≡ joined (joint library.now text.now) t work.old g 0 n o f }
{
    let mut h = f;
    for k in 0..n {
        h = absorb_equation(library, text, work, t, g, k, o, h);
    }
    h
}

// Every equation of g absorbed into f; the answer is f with its new counts.
pub fn absorb_equations(
    library: &[u8],
    text: &[u8],
    work: &mut [u32],
    t: usize,
    g: Form,
    o: Notes,
    f: Form,
) -> Form
    requires { t ≤ length work.old }
    ensures { out result work.new ≡ joined (joint library.now text.now) t work.old g 0 g.equation_count o f }
{
    let n = g.equation_count;
    absorb_first(library, text, work, t, g, n, o, f)
}
