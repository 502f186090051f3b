// Lines of a diagram, each with its depth, written to lent output and counted: 1,025 of them at most, one more than a diagram may have.
#![tactic(auto)]

ghost use Rattle.std.specs.Prelude.{◌≡◌, [], ◌∷◌};
ghost use Rattle.text_names.specs.Word.{name_of};
ghost use Rattle.text_names.specs.Joint.{joint};
ghost use Rattle.list_pen.specs.Pen.{pen, written};
ghost use Rattle.diagram_meaning.specs.Diagram.{bind_line};
ghost use Rattle.diagram_lines.specs.Sheet.{front_of, named_line, drawing, drew};

use list_pen::{put_name, put_number, put_text};

// One more than a diagram's lines may be.
pub const LINES: u32 = 1025;

// Where the next byte goes, and how many lines there are.
#[derive(Clone, Copy)]
pub struct Sheet {
    pub at: usize,
    pub lines: u32,
}

// A line's key with its `=`, its depth, and a name.
fn put_front(
    out: &mut [u8],
    at: usize,
    limit: usize,
    library: &[u8],
    text: &[u8],
    key: &[u8],
    depth: u32,
    w: u32,
) -> usize
    ensures { let texts = joint library.now text.now in
        pen result out.new ≡ written limit (front_of key.now depth (name_of texts w)) (pen at out.old) }
{
    let a = put_text(out, at, limit, key);
    let b = put_text(out, a, limit, b"=");
    let c = put_number(out, b, limit, depth);
    let d = put_text(out, c, limit, b",");
    put_name(out, d, limit, library, text, w)
}

// A line with a name.
pub fn draw_named(
    out: &mut [u8],
    at: usize,
    lines: u32,
    limit: usize,
    library: &[u8],
    text: &[u8],
    key: &[u8],
    depth: u32,
    w: u32,
) -> Sheet
    ensures { let texts = joint library.now text.now in
        drawing result.at result.lines out.new ≡ drew limit (named_line key.now depth (name_of texts w) ∷ [])
        (drawing at lines out.old) }
{
    if LINES <= lines {
        return Sheet { at, lines };
    }
    let a = put_front(out, at, limit, library, text, key, depth, w);
    let b = put_text(out, a, limit, b"\n");
    Sheet {
        at: b,
        lines: lines + 1,
    }
}

// The line of a binding of the parameter p to the module m.
pub fn draw_bind(
    out: &mut [u8],
    at: usize,
    lines: u32,
    limit: usize,
    library: &[u8],
    text: &[u8],
    depth: u32,
    p: u32,
    m: u32,
) -> Sheet
    ensures { let texts = joint library.now text.now in
        drawing result.at result.lines out.new ≡ drew limit
        (bind_line depth (record { parameter = name_of texts p; actual = name_of texts m }) ∷ []) (drawing at lines out.old) }
{
    if LINES <= lines {
        return Sheet { at, lines };
    }
    let a = put_front(out, at, limit, library, text, b"bind", depth, p);
    let b = put_text(out, a, limit, b",");
    let c = put_name(out, b, limit, library, text, m);
    let d = put_text(out, c, limit, b"\n");
    Sheet {
        at: d,
        lines: lines + 1,
    }
}
