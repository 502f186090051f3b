// The lines of a box: its module's name, the parameters that the module declares itself, and the bindings of the expression that brought it in.
#![tactic(auto)]

ghost use Rattle.std.specs.Prelude.{◌≡◌, map, ◌-◌, get_or};
ghost use Rattle.text_names.specs.Word.{name_of};
ghost use Rattle.text_names.specs.Joint.{joint};
ghost use Rattle.form_rows.specs.Entries.{name_at};
ghost use Rattle.modules.specs.Modules.{picked, heads_in};
ghost use Rattle.diagram_meaning.specs.Diagram.{parameter_line, bind_line};
ghost use Rattle.diagram_lines.specs.Sheet.{drawing, drew};
ghost use Rattle.diagram_boxes.specs.Boxes.{is_parameter, bindings_from, box_lines};

use diagram_lines::{Sheet, draw_bind, draw_named};
use form_rows::entries::{name_at, role_at};
use modules::{Heads, name_of_module, place_at};
use tape::roles;

fn is_parameter(role: u32) -> bool
    ensures { result ≡ is_parameter role }
{
    role == roles::PARAMETER
}

// The parameters among the entries from `a` up to `end`.
fn draw_parameters(
    out: &mut [u8],
    at: usize,
    lines: u32,
    limit: usize,
    library: &[u8],
    text: &[u8],
    tape: &[u32],
    depth: u32,
    a: u32,
    end: u32,
) -> Sheet
    ensures { let texts = joint library.now text.now in
        drawing result.at result.lines out.new ≡ drew limit
        (map (parameter_line depth) (picked is_parameter texts tape.now a (end - a))) (drawing at lines out.old) }
{
    let mut to = at;
    let mut n = lines;
    for j in a..end {
        if is_parameter(role_at(tape, j as usize)) {
            let w = name_at(tape, j as usize);
            let s = draw_named(out, to, n, limit, library, text, b"parameter", depth, w);
            to = s.at;
            n = s.lines;
        }
    }
    Sheet { at: to, lines: n }
}

// The bindings among the clauses that stand from `a` on, before `end`; q is the parameter of the one at `a`, if one goes on there.
fn draw_binds(
    out: &mut [u8],
    at: usize,
    lines: u32,
    limit: usize,
    library: &[u8],
    text: &[u8],
    tape: &[u32],
    depth: u32,
    q: u32,
    a: u32,
    end: u32,
) -> Sheet
    ensures { let texts = joint library.now text.now in
        drawing result.at result.lines out.new ≡ drew limit (map (bind_line depth) (bindings_from texts tape.now q a (end - a)))
        (drawing at lines out.old) }
{
    let mut to = at;
    let mut n = lines;
    let mut p = q;
    for j in a..end {
        let role = role_at(tape, j as usize);
        if role < roles::RENAMING {
            return Sheet { at: to, lines: n };
        }
        if roles::ACTUAL < role {
            return Sheet { at: to, lines: n };
        }
        if role == roles::BINDING {
            p = name_at(tape, j as usize);
        } else if role == roles::ACTUAL {
            let m = name_at(tape, j as usize);
            let s = draw_bind(out, to, n, limit, library, text, depth, p, m);
            to = s.at;
            n = s.lines;
        }
    }
    Sheet { at: to, lines: n }
}

// The lines of the box of module k. The clauses of the expression that brought it in stand from `a` on, before `end`.
pub fn draw_box(
    out: &mut [u8],
    at: usize,
    lines: u32,
    limit: usize,
    library: &[u8],
    text: &[u8],
    tape: &[u32],
    h: &Heads,
    depth: u32,
    k: u32,
    a: u32,
    end: u32,
) -> Sheet
    ensures { let texts = joint library.now text.now in
        drawing result.at result.lines out.new ≡ drew limit (box_lines texts tape.now (heads_in h.now) depth k a end)
        (drawing at lines out.old) }
{
    let w = name_of_module(tape, h, k);
    let from = place_at(h, k as usize);
    let to = place_at(h, k as usize + 1);
    let s = draw_named(out, at, lines, limit, library, text, b"box", depth, w);
    let t = draw_parameters(
        out, s.at, s.lines, limit, library, text, tape, depth, from, to,
    );
    draw_binds(
        out, t.at, t.lines, limit, library, text, tape, depth, 0, a, end,
    )
}
