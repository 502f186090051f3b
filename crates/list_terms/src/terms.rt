// Terms, written as `f(a,b)`. Their nodes stand in prefix order in the memory, and the visible items' rows from `visible` on.
// A level of a term takes little stack: it is lent four places, the output and what is read, each by one reference, and what only a node
// needs is out of its way.
ghost use Rattle.std.specs.Prelude.{◌≡◌, ◌+◌, ◌-◌, ◌*◌, ◌%◌, ◌<◌, get_or};
ghost use Rattle.text_names.specs.Joint.{joint};
ghost use Rattle.list_pen.specs.Pen.{pen, written};
ghost use Rattle.form_rows.specs.Rows.{row_size};
ghost use Rattle.list_terms.specs.Terms.{node_text, item_at, alone, opened, closed, term_at, Shown, Placed, Headed};

use super::Printed;
use form_rows::ROW_STEP;
use form_rows::entries::word_at;

// What a term is written from: the texts that the names are in, and the memory that has the nodes and the rows.
#[derive(Clone, Copy)]
struct Source<'a> {
    library: &'a [u8],
    text: &'a [u8],
    work: &'a [u32],
}

// The word of the name of a visible item's row; 0 where no rows are.
fn name_word(work: &[u32], visible: usize, row: u32) -> u32
    ensures { result ≡ get_or work.now (visible + row * row_size + 1) 0 }
{
    if visible < work.len() {
        return word_at(work, visible + row as usize * ROW_STEP + 1);
    }
    0
}

// The name of a visible item at a node, or the number of a hidden one.
fn put_item(
    out: &mut [u8],
    at: usize,
    limit: usize,
    library: &[u8],
    text: &[u8],
    work: &[u32],
    visible: usize,
    v: u32,
) -> usize
    ensures { pen result out.new ≡ written limit (node_text (joint library.now text.now) work.now visible v) (pen at out.old) }
{
    if v / 16 % 2 == 0 {
        let w = name_word(work, visible, v / 32);
        return list_pen::put_name(out, at, limit, library, text, w);
    }
    list_pen::put_numbered(out, at, limit, v / 32 + 1)
}

// The item at node i, where there is one.
fn put_single(
    out: &mut [u8],
    at: usize,
    limit: usize,
    library: &[u8],
    text: &[u8],
    work: &[u32],
    visible: usize,
    i: usize,
) -> Printed
    ensures { Shown limit at (item_at (joint library.now text.now) work.now visible i) out.old result out.new }
{
    if i < work.len() {
        let v = word_at(work, i);
        let named = put_item(out, at, limit, library, text, work, visible, v);
        return Printed {
            at: named,
            next: i + 1,
        };
    }
    Printed { at, next: i }
}

// The same at four places, which are those of the output, the node, the limit and the visible rows.
fn put_node(out: &mut &mut [u8], source: &Source, places: &mut [usize; 4])
    ensures { let text = joint source.now.library.now source.now.text.now in
        let item = item_at text source.now.work.now (get_or places.old 3 0) (get_or places.old 1 0) in
        Placed item places.old out.old places.new out.new }
{
    let at = places[0];
    let i = places[1];
    let limit = places[2];
    let visible = places[3];
    let p = put_single(
        *out,
        at,
        limit,
        source.library,
        source.text,
        source.work,
        visible,
        i,
    );
    let to = p.at;
    let next = p.next;
    *places = [to, next, limit, visible];
}

// One byte.
fn put_mark(out: &mut &mut [u8], places: &mut [usize; 4], byte: u8)
    ensures { Placed (alone byte (get_or places.old 1 0)) places.old out.old places.new out.new }
{
    let at = places[0];
    let i = places[1];
    let limit = places[2];
    let visible = places[3];
    let to = list_pen::put(*out, at, limit, byte);
    *places = [to, i, limit, visible];
}

// How many arguments stand behind a node; none where no node is.
fn arguments_at(work: &[u32], i: usize) -> usize
    ensures { result ≡ get_or work.now i 0 % 16 }
{
    (word_at(work, i) % 16) as usize
}

// How many arguments follow the first of an item that has some, n nodes behind node i. Here the slice itself is lent: its length tells
// that the sum fits.
fn others_at(work: &[u32], i: usize, n: usize) -> usize
    requires { 0 < get_or work.now (i + n) 0 % 16 }
    ensures { result ≡ get_or work.now (i + n) 0 % 16 - 1 }
{
    arguments_at(work, i + n) - 1
}

// An item that has arguments, and the bracket before them.
fn put_opened(out: &mut &mut [u8], source: &Source, places: &mut [usize; 4])
    ensures { let text = joint source.now.library.now source.now.text.now in
        let item = item_at text source.now.work.now (get_or places.old 3 0) (get_or places.old 1 0) in
        Placed (opened item) places.old out.old places.new out.new }
{
    put_node(out, source, places);
    put_mark(out, places, b'(');
}

// The items from the node on, each with its bracket, and the first that has no arguments, unless the depth ends before it; how many
// brackets are open.
fn put_heads(out: &mut &mut [u8], source: &Source, places: &mut [usize; 4], depth: usize) -> usize
    ensures { Headed (joint source.now.library.now source.now.text.now) source.now.work.now depth result places.old out.old places.new out.new }
{
    for n in 0..depth {
        let i = places[1];
        if arguments_at(source.work, i) == 0 {
            put_node(out, source, places);
            return n;
        }
        put_opened(out, source, places);
    }
    depth
}

// What follows an item's first argument: the others from the node on, `left` of them, each behind a comma, and the closing bracket.
#[cycle(writing)]
fn put_more(
    out: &mut &mut [u8],
    source: &Source,
    places: &mut [usize; 4],
    depth: usize,
    left: usize,
)
    ensures { let text = joint source.now.library.now source.now.text.now in
        let term = term_at text source.now.work.now (get_or places.old 3 0) depth in
        Placed (closed term left (get_or places.old 1 0)) places.old out.old places.new out.new }
{
    // counted down, so that a level keeps one word for it
    for _ in (0..left).rev() {
        put_mark(out, places, b',');
        put_deep(out, source, places, depth);
    }
    put_mark(out, places, b')');
}

// The term at the node, down to a depth. First arguments stand straight behind their items, so a loop goes down them and one goes back:
// only the other arguments take a level.
#[cycle(writing)]
fn put_deep(out: &mut &mut [u8], source: &Source, places: &mut [usize; 4], depth: usize)
    ensures { let text = joint source.now.library.now source.now.text.now in
        let term = term_at text source.now.work.now (get_or places.old 3 0) depth (get_or places.old 1 0) in
        Placed term places.old out.old places.new out.new }
{
    let i = places[1];
    let heads = put_heads(out, source, places, depth);
    for n in (0..heads).rev() {
        let left = others_at(source.work, i, n);
        put_more(out, source, places, depth - n - 1, left);
    }
}

// The same for the slice itself, which is lent on by one reference. The borrow checker covers that where the slice is moved, so it is
// moved, and handed back: by that the caller knows what became of it.
fn put_lent<'a>(
    out: &'a mut [u8],
    library: &[u8],
    text: &[u8],
    work: &[u32],
    places: &mut [usize; 4],
    depth: usize,
) -> &'a mut [u8]
    ensures { let term = term_at (joint library.now text.now) work.now (get_or places.old 3 0) depth (get_or places.old 1 0) in
        Placed term places.old out.entry places.new result }
{
    let source = Source {
        library,
        text,
        work,
    };
    let mut lent = out;
    put_deep(&mut lent, &source, places, depth);
    let back = lent;
    back
}

// The term at node i, down to a depth.
pub fn put_term(
    out: &mut [u8],
    at: usize,
    limit: usize,
    library: &[u8],
    text: &[u8],
    work: &[u32],
    visible: u32,
    depth: usize,
    i: usize,
) -> Printed
    ensures { Shown limit at (term_at (joint library.now text.now) work.now visible depth i) out.old result out.new }
{
    let mut places = [at, i, limit, visible as usize];
    let _back = put_lent(out, library, text, work, &mut places, depth);
    Printed {
        at: places[0],
        next: places[1],
    }
}
