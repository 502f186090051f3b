// Nodes of equations compared and copied, in one working memory: a copied node goes through notes of where its item went. The definitions are those
// of whole equations too, which `unite_equations` absorbs.
#![tactic(auto)]

ghost use Rattle.std.specs.Prelude.{◌≡◌, ◌+◌, ◌/◌, ◌%◌, ◌≤◌, length, set, get_or, eqb};
ghost use Rattle.meaning.specs.Origins.{hidden_sort, same_sort};
ghost use Rattle.text_names.specs.Joint.{joint};
ghost use Rattle.form_rows.specs.Rows.{origin_of, sort_of, item_of};
ghost use Rattle.form.specs.Memory.{part};
ghost use Rattle.form.specs.Forms.{node_row, node_of, node_in};
ghost use Rattle.form.specs.Flat.{same_node};
ghost use Rattle.unite_nodes.specs.Joined.{node_sort, functions_agree, renoded, renode, copied, same_at, same_run};

use form_comparing::declarations::same_origin;
use form_comparing::sorts::{same_shape, same_sort};
use form_rows::entries::{home_at, kind_at, put_word, same_name_at, same_word, word_at};
use form_rows::rows::read_row;
use form_rows::sections::same_section;
use form_rows::{Origin, Row, kinds};
use form_sections::Section;

// Where the notes of visible and of hidden items stand, a word for each row of the source; and how many equations and nodes the
// destination has room for.
#[derive(Clone, Copy)]
pub struct Notes {
    pub visible: u32,
    pub hidden: u32,
    pub equation_room: u32,
    pub node_room: u32,
}

// Is the sort that stands at an origin, taken as a hidden one, the sort w?
fn is_sort(library: &[u8], text: &[u8], tape: &[u32], o: Origin, w: u32) -> bool
    ensures { result ≡ same_sort (hidden_sort (origin_of (joint library.now text.now) tape.now o)) (sort_of (joint library.now text.now) tape.now w) }
{
    if w % 2 == 0 {
        return false;
    }
    let d = w / 2;
    let p = o.place;
    if same_name_at(library, text, tape, p as usize, d as usize) {
        let k = kind_at(tape, p);
        if k == kinds::SORT {
            let h = o.home;
            let g = home_at(tape, d);
            if same_word(library, text, h, g) {
                let s = o.section;
                return same_section(library, text, s, Section::Hidden);
            }
            return false;
        }
        return false;
    }
    false
}

// Have a and b, no functions, one sort at a node?
fn same_node_sorts(library: &[u8], text: &[u8], tape: &[u32], a: Row, b: Row) -> bool
    ensures { result ≡ same_sort (node_sort (joint library.now text.now) tape.now a) (node_sort (joint library.now text.now) tape.now b) }
{
    let k = a.kind;
    let l = b.kind;
    let o = a.origin;
    let p = b.origin;
    let s = a.sorts;
    let t = b.sorts;
    if k == kinds::SORT {
        if l == kinds::SORT {
            return same_origin(library, text, tape, o, p);
        }
        return is_sort(library, text, tape, o, t[8]);
    }
    if l == kinds::SORT {
        return is_sort(library, text, tape, p, s[8]);
    }
    same_sort(library, text, tape, s[8], t[8])
}

// Are the functions a and b the same at nodes u and v?
fn same_functions(library: &[u8], text: &[u8], tape: &[u32], u: u32, a: Row, v: u32, b: Row) -> bool
    ensures { result ≡ functions_agree (joint library.now text.now) tape.now u a v b }
{
    if u % 32 == v % 32 {
        if same_shape(library, text, tape, a, b) {
            if u % 32 < 16 {
                let x = a.name;
                let y = b.name;
                return same_word(library, text, x, y);
            }
            let o = a.origin;
            let p = b.origin;
            return same_origin(library, text, tape, o, p);
        }
        return false;
    }
    false
}

// Are a and b, which stand at nodes u and v, the same there?
fn same_at_nodes(library: &[u8], text: &[u8], tape: &[u32], u: u32, a: Row, v: u32, b: Row) -> bool
    ensures { result ≡ same_node (node_of (eqb (u / 16 % 2) 0) (u % 16) (item_of (joint library.now text.now) tape.now a)) (node_of (eqb (v / 16 % 2) 0) (v % 16) (item_of (joint library.now text.now) tape.now b)) }
{
    let k = a.kind;
    let l = b.kind;
    if k < kinds::FUNCTION {
        if l < kinds::FUNCTION {
            let o = a.origin;
            let p = b.origin;
            if same_origin(library, text, tape, o, p) {
                return same_node_sorts(library, text, tape, a, b);
            }
            return false;
        }
        return false;
    }
    if l < kinds::FUNCTION {
        return false;
    }
    same_functions(library, text, tape, u, a, v, b)
}

// The row that node v points at.
fn node_row(work: &[u32], visible: u32, hidden: u32, v: u32) -> Row
    ensures { result ≡ node_row work.now visible hidden v }
{
    if v / 16 % 2 == 0 {
        return read_row(work, visible, v / 32);
    }
    read_row(work, hidden, v / 32)
}

// Are u and v the same nodes over the tables of visible and of hidden items?
pub fn same_node(
    library: &[u8],
    text: &[u8],
    work: &[u32],
    t: usize,
    visible: u32,
    hidden: u32,
    u: u32,
    v: u32,
) -> bool
    requires { t ≤ length work.now }
    ensures { result ≡ same_node (node_in (joint library.now text.now) (part work.now 0 t) work.now visible hidden u) (node_in (joint library.now text.now) (part work.now 0 t) work.now visible hidden v) }
{
    if u == v {
        return true;
    }
    let a = node_row(work, visible, hidden, u);
    let b = node_row(work, visible, hidden, v);
    same_at_nodes(library, text, &work[0..t], u, a, v, b)
}

// Are the nodes at places a and b the same?
fn same_node_at(
    library: &[u8],
    text: &[u8],
    work: &[u32],
    t: usize,
    visible: u32,
    hidden: u32,
    a: usize,
    b: usize,
) -> bool
    requires { t ≤ length work.now }
    ensures { result ≡ same_at (joint library.now text.now) t work.now visible hidden a b }
{
    let u = word_at(work, a);
    let v = word_at(work, b);
    same_node(library, text, work, t, visible, hidden, u, v)
}

// Are c nodes from a on those from b on, both counted from place `base`?
pub fn same_nodes(
    library: &[u8],
    text: &[u8],
    work: &[u32],
    t: usize,
    visible: u32,
    hidden: u32,
    base: u32,
    a: u32,
    b: u32,
    c: u32,
) -> bool
    requires { t ≤ length work.now }
    ensures { result ≡ same_run (joint library.now text.now) t work.now visible hidden (base + a) (base + b) c }
{
    let i = base as usize + a as usize;
    let j = base as usize + b as usize;
    for k in 0..c as usize {
        if !same_node_at(library, text, work, t, visible, hidden, i + k, j + k) {
            return false;
        }
    }
    true
}

// Node v with row r in place of its own.
fn renoded(v: u32, r: u32) -> u32
    ensures { result ≡ renoded v r }
{
    if r < 65536 {
        return r * 32 + v % 32;
    }
    0
}

// Node v through the notes that stand at `visible` and `hidden`.
fn renode(work: &[u32], visible: u32, hidden: u32, v: u32) -> u32
    ensures { result ≡ renode work.now visible hidden v }
{
    let row = (v / 32) as usize;
    if v % 32 < 16 {
        let r = word_at(work, visible as usize + row);
        return renoded(v, r);
    }
    let r = word_at(work, hidden as usize + row);
    renoded(v, r)
}

// The node at place a, through the notes, to place b.
fn copy_node(work: &mut [u32], visible: u32, hidden: u32, a: usize, b: usize)
    ensures { work.new ≡ set work.old b (renode work.old visible hidden (get_or work.old a 0)) }
{
    let v = word_at(work, a);
    let u = renode(work, visible, hidden, v);
    put_word(work, b, u);
}

// c nodes from node a at `source` on, through the notes, to node b at `base`.
pub fn copy_nodes(
    work: &mut [u32],
    visible: u32,
    hidden: u32,
    source: u32,
    a: u32,
    base: u32,
    b: u32,
    c: u32,
)
    ensures { work.new ≡ copied work.old visible hidden (source + a) (base + b) c }
{
    let i = source as usize + a as usize;
    let j = base as usize + b as usize;
    for k in 0..c as usize {
        copy_node(work, visible, hidden, i + k, j + k);
    }
}
