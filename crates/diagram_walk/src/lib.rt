// The walk through the import expressions of a module, and of the modules that they name: without recursion. Of each open box its module's number and
// the place on the tape from which its expressions are still to be drawn stand in the working memory, behind the tape; at most 64 boxes are open.
#![tactic(auto)]

ghost use Rattle.std.specs.Prelude.{◌<◌, ◌≤◌, length};
ghost use Rattle.text_names.specs.Joint.{joint};
ghost use Rattle.modules.specs.Modules.{heads_in};
ghost use Rattle.diagram_open.specs.Turns.{Walking, Turning, Turned, Missed, Opened, Starting, Begun, Ended, Walked, read_modules};

use diagram_boxes::draw_box;
use diagram_lines::{LINES, Sheet, draw_named};
use form_rows::entries::{name_at, next_with, put_three, put_word, word_at};
use modules::{Heads, find_number, place_at};
use tape::roles;

// Where the next byte goes, how many lines there are, and how many boxes are open.
#[derive(Clone, Copy)]
pub struct Step {
    pub at: usize,
    pub lines: u32,
    pub boxes: u32,
}

// No module that stands earlier is called w, as the expression at e says, which is of the last open box.
fn draw_absent(
    out: &mut [u8],
    at: usize,
    lines: u32,
    limit: usize,
    library: &[u8],
    text: &[u8],
    work: &mut [u32],
    base: usize,
    boxes: u32,
    e: u32,
    w: u32,
) -> Sheet
    requires base_bound { base ≤ 65536 }
    requires boxes_nonzero { 0 < boxes }
    requires boxes_bound { boxes ≤ 64 }
    requires e_bound { e < 4294967295 }
    ensures { let texts = joint library.now text.now in
        Missed limit texts base boxes e w work.old at lines out.old work.new result.at result.lines out.new }
{
    let row = base + 2 * (boxes as usize - 1);
    put_word(work, row + 1, e + 1);
    draw_named(out, at, lines, limit, library, text, b"absent", boxes, w)
}

// The box of module p, which the expression at e brings in: it becomes the last open one.
fn draw_opened(
    out: &mut [u8],
    at: usize,
    lines: u32,
    limit: usize,
    library: &[u8],
    text: &[u8],
    work: &mut [u32],
    t: usize,
    h: &Heads,
    base: usize,
    boxes: u32,
    p: u32,
    e: u32,
    end: u32,
) -> Sheet
    requires t_in_bounds { t ≤ length work.old }
    requires base_bound { base ≤ 65536 }
    requires boxes_nonzero { 0 < boxes }
    requires boxes_bound { boxes ≤ 64 }
    requires e_bound { e < 4294967295 }
    ensures { let texts = joint library.now text.now in
        Opened limit texts (heads_in h.now) t base boxes p e end work.old at lines out.old work.new
        result.at result.lines out.new }
{
    let row = base + 2 * (boxes as usize - 1);
    let f = place_at(h, p as usize);
    put_three(work, row + 1, e + 1, p, f);
    draw_box(
        out,
        at,
        lines,
        limit,
        library,
        text,
        &work[0..t],
        h,
        boxes,
        p,
        e + 1,
        end,
    )
}

// The expression at e, of module k, whose box is the last of those that are open. It is opened where its module stands before module k.
fn draw_expression(
    out: &mut [u8],
    at: usize,
    lines: u32,
    limit: usize,
    library: &[u8],
    text: &[u8],
    work: &mut [u32],
    t: usize,
    h: &Heads,
    base: usize,
    boxes: u32,
    k: u32,
    e: u32,
    end: u32,
) -> Step
    requires t_in_bounds { t ≤ length work.old }
    requires base_bound { base ≤ 65536 }
    requires boxes_nonzero { 0 < boxes }
    requires boxes_bound { boxes ≤ 64 }
    requires e_lt_end { e < end }
    requires turning { Turning (joint library.now text.now) (read_modules library.now text.now) (heads_in h.now) t base work.old boxes k e end }
    ensures { let texts = joint library.now text.now in
        Turned limit texts (read_modules library.now text.now) (heads_in h.now) t base work.old boxes at
        lines out.old work.new result.boxes result.at result.lines out.new }
{
    let more = boxes + 1;
    let w = name_at(&work[0..t], e as usize);
    let p = find_number(library, text, &work[0..t], h, w);
    if k <= p {
        let s = draw_absent(
            out, at, lines, limit, library, text, work, base, boxes, e, w,
        );
        return Step {
            at: s.at,
            lines: s.lines,
            boxes,
        };
    }
    let s = draw_opened(
        out, at, lines, limit, library, text, work, t, h, base, boxes, p, e, end,
    );
    Step {
        at: s.at,
        lines: s.lines,
        boxes: more,
    }
}

// The next expression of the last open box; or that box is closed, where there is none.
fn turn(
    out: &mut [u8],
    at: usize,
    lines: u32,
    limit: usize,
    library: &[u8],
    text: &[u8],
    work: &mut [u32],
    t: usize,
    h: &Heads,
    base: usize,
    boxes: u32,
) -> Step
    requires t_in_bounds { t ≤ length work.old }
    requires base_bound { base ≤ 65536 }
    requires boxes_nonzero { 0 < boxes }
    requires boxes_bound { boxes ≤ 64 }
    requires walking { Walking (joint library.now text.now) (read_modules library.now text.now) (heads_in h.now) t base work.old boxes }
    ensures { let texts = joint library.now text.now in
        Turned limit texts (read_modules library.now text.now) (heads_in h.now) t base work.old boxes at
        lines out.old work.new result.boxes result.at result.lines out.new }
{
    let row = base + 2 * (boxes as usize - 1);
    let k = word_at(work, row);
    let j = word_at(work, row + 1);
    let end = place_at(h, k as usize + 1);
    let e = next_with(&work[0..t], roles::IMPORT, j as usize, end as usize);
    if end as usize <= e {
        return Step {
            at,
            lines,
            boxes: boxes - 1,
        };
    }
    draw_expression(
        out, at, lines, limit, library, text, work, t, h, base, boxes, k, e as u32, end,
    )
}

// The box of the top module, number k, is drawn and open.
fn begin(
    out: &mut [u8],
    limit: usize,
    library: &[u8],
    text: &[u8],
    work: &mut [u32],
    t: usize,
    h: &Heads,
    base: usize,
    k: u32,
) -> Sheet
    requires t_in_bounds { t ≤ length work.old }
    requires base_bound { base ≤ 65536 }
    requires starting { Starting (joint library.now text.now) (read_modules library.now text.now) (heads_in h.now) t base work.old k }
    ensures { let texts = joint library.now text.now in
        Begun limit texts (read_modules library.now text.now) (heads_in h.now) t base k work.old
        out.old work.new result.at result.lines out.new }
{
    let s = draw_box(out, 0, 0, limit, library, text, &work[0..t], h, 0, k, 0, 0);
    let f = place_at(h, k as usize);
    put_word(work, base, k);
    put_word(work, base + 1, f);
    s
}

// All that is pending while one box is open.
fn go_on(
    out: &mut [u8],
    at: usize,
    lines: u32,
    limit: usize,
    library: &[u8],
    text: &[u8],
    work: &mut [u32],
    t: usize,
    h: &Heads,
    base: usize,
) -> Sheet
    requires base_bound { base ≤ 65536 }
    requires walking { Walking (joint library.now text.now) (read_modules library.now text.now) (heads_in h.now) t base work.old 1 }
    ensures { let texts = joint library.now text.now in
        Ended limit texts (read_modules library.now text.now) (heads_in h.now) t base work.old at
        lines out.old work.new result.at result.lines out.new }
{
    let mut to = at;
    let mut n = lines;
    let mut boxes: u32 = 1;
    // a while: a turn opens a box or closes one
    while 0 < boxes {
        if LINES <= n {
            return Sheet { at: to, lines: n };
        }
        let s = turn(out, to, n, limit, library, text, work, t, h, base, boxes);
        to = s.at;
        n = s.lines;
        boxes = s.boxes;
    }
    Sheet { at: to, lines: n }
}

// The whole diagram of module k of a tape of t entries. What is open stands in the working memory from `base` on.
pub fn walk(
    out: &mut [u8],
    limit: usize,
    library: &[u8],
    text: &[u8],
    work: &mut [u32],
    t: usize,
    h: &Heads,
    base: usize,
    k: u32,
) -> Sheet
    requires t_in_bounds { t ≤ length work.old }
    requires base_bound { base ≤ 65536 }
    requires starting { Starting (joint library.now text.now) (read_modules library.now text.now) (heads_in h.now) t base work.old k }
    ensures { let texts = joint library.now text.now in
        Walked limit texts (read_modules library.now text.now) (heads_in h.now) t base k work.old
        out.old work.new result.at result.lines out.new }
{
    let s = begin(out, limit, library, text, work, t, h, base, k);
    go_on(out, s.at, s.lines, limit, library, text, work, t, h, base)
}
