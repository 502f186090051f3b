// Equations, written as `[tag] l=r when a=b,c=d`.
ghost use Rattle.std.specs.Prelude.{◌≡◌};
ghost use Rattle.text_names.specs.Joint.{joint};
ghost use Rattle.list_pen.specs.Pen.{pen, written};
ghost use Rattle.list_terms.specs.Terms.{listed, sides_at, when_at, rule_at, equation_at, Shown};

use super::Printed;
use super::terms::put_term;
use form::EquationRow;

// The two terms from node i on.
fn put_sides(
    out: &mut [u8],
    at: usize,
    limit: usize,
    library: &[u8],
    text: &[u8],
    work: &[u32],
    visible: u32,
    depth: usize,
    i: usize,
) -> Printed
    ensures { Shown limit at (sides_at (joint library.now text.now) work.now visible depth i) out.old result out.new }
{
    let p = put_term(out, at, limit, library, text, work, visible, depth, i);
    let a = p.at;
    let next = p.next;
    let b = list_pen::put(out, a, limit, b'=');
    put_term(out, b, limit, library, text, work, visible, depth, next)
}

// The conditions from node i on, `left` of them, with commas between.
fn put_conditions(
    out: &mut [u8],
    at: usize,
    limit: usize,
    library: &[u8],
    text: &[u8],
    work: &[u32],
    visible: u32,
    depth: usize,
    left: u32,
    i: usize,
) -> Printed
    ensures { Shown limit at (listed (sides_at (joint library.now text.now) work.now visible depth) left i) out.old result out.new }
{
    let mut to = at;
    let mut node = i;
    for more in (0..left).rev() {
        let p = put_sides(out, to, limit, library, text, work, visible, depth, node);
        if more == 0 {
            return p;
        }
        let filled = p.at;
        node = p.next;
        to = list_pen::put(out, filled, limit, b',');
    }
    Printed { at: to, next: node }
}

// What follows an equation's conclusion.
fn put_when(
    out: &mut [u8],
    at: usize,
    limit: usize,
    library: &[u8],
    text: &[u8],
    work: &[u32],
    visible: u32,
    depth: usize,
    left: u32,
    i: usize,
) -> usize
    ensures { pen result out.new ≡ written limit (when_at (joint library.now text.now) work.now visible depth left i) (pen at out.old) }
{
    if left == 0 {
        return at;
    }
    let a = list_pen::put_text(out, at, limit, b" when ");
    let p = put_conditions(out, a, limit, library, text, work, visible, depth, left, i);
    p.at
}

// What follows an equation's tag.
fn put_rule(
    out: &mut [u8],
    at: usize,
    limit: usize,
    library: &[u8],
    text: &[u8],
    work: &[u32],
    visible: u32,
    depth: usize,
    left: u32,
    i: usize,
) -> usize
    ensures { pen result out.new ≡ written limit (rule_at (joint library.now text.now) work.now visible depth left i) (pen at out.old) }
{
    let p = put_sides(out, at, limit, library, text, work, visible, depth, i);
    let a = p.at;
    let next = p.next;
    put_when(
        out, a, limit, library, text, work, visible, depth, left, next,
    )
}

// The equation of a row, where its form's nodes stand from `nodes` on.
pub fn put_equation(
    out: &mut [u8],
    at: usize,
    limit: usize,
    library: &[u8],
    text: &[u8],
    work: &[u32],
    visible: u32,
    nodes: u32,
    row: EquationRow,
) -> usize
    ensures { pen result out.new ≡ written limit (equation_at (joint library.now text.now) work.now visible nodes row) (pen at out.old) }
{
    let tag = row.tag;
    let left = row.conditions;
    let depth = row.count as usize;
    let start = nodes as usize + row.start as usize;
    let a = list_pen::put_text(out, at, limit, b"[");
    let b = list_pen::put_name(out, a, limit, library, text, tag);
    let c = list_pen::put_text(out, b, limit, b"] ");
    put_rule(
        out, c, limit, library, text, work, visible, depth, left, start,
    )
}
