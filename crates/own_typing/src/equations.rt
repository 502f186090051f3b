// The typer of equations: two sides have one sort; the conclusion's nodes are written, and then the conditions'.
ghost use Rattle.std.specs.Prelude.{◌≡◌, ◌+◌, ◌^◌, ◌≤◌, ◌<◌, length};
ghost use Rattle.text_names.specs.Joint.{joint};
ghost use Rattle.own_terms.specs.Typing.{out};
ghost use Rattle.own_typing.specs.Equations.{right_at, sides_at, passed, begins_at, sides_from, equation_at, span, row_of};
ghost use Rattle.own_typing.specs.Equations.{stored, turn_at, told, equations_from};

use super::{Counted, Equated, Module};
use form::EquationRow;
use form::equations::write_equation;
use form_comparing::sorts::same_sort;
use form_rows::entries::{name_at, role_at};
use own_finding::Known;
use own_terms::Sorted;
use own_terms::terms::type_term;
use tape::roles;

// The right side, at i; the left one has the sort s.
#[tactic(auto, unfolding(crate::specs::Equations::right_at, crate::specs::Equations::right_checked, meaning::specs::Lists::pick))]
fn type_right(
    library: &[u8],
    text: &[u8],
    work: &mut [u32],
    k: Known,
    s: u32,
    i: usize,
    q: usize,
) -> Option<Sorted>
    requires { (k.tape ≤ length work.old) × (k.count ≤ 65536) × (k.hidden ≤ 65536) }
    ensures { out result work.new ≡ right_at (joint library.now text.now) k s i q work.old }
{
    let t = k.tape;
    let right = type_term(library, text, work, k, i, q, t)?;
    if same_sort(library, text, &work[0..t], s, right.sort) {
        return Some(Sorted { sort: s, ..right });
    }
    None
}

// The two sides at i.
#[tactic(auto, unfolding(crate::specs::Equations::sides_at, crate::specs::Equations::left_checked))]
fn type_sides(
    library: &[u8],
    text: &[u8],
    work: &mut [u32],
    k: Known,
    i: usize,
    q: usize,
) -> Option<Sorted>
    requires { (k.tape ≤ length work.old) × (k.count ≤ 65536) × (k.hidden ≤ 65536) }
    ensures { out result work.new ≡ sides_at (joint library.now text.now) k i q work.old }
{
    let t = k.tape;
    let left = type_term(library, text, work, k, i, q, t)?;
    type_right(library, text, work, k, left.sort, left.next, left.free)
}

// Does a term begin at i, before the end?
#[tactic(auto, unfolding(crate::specs::Equations::begins_at, own_terms::specs::Typing::is_opening, meaning::specs::Lists::pick))]
fn begins_at(tape: &[u32], i: usize, end: usize) -> bool
    ensures { result ≡ begins_at tape.now i end }
{
    i < end
        && matches!(
            role_at(tape, i),
            roles::ALONE | roles::HEAD | roles::PREFIX | roles::INFIX
        )
}

// The sides from i on, n of them kept so far: those whose entry has the role.
fn type_marked(
    library: &[u8],
    text: &[u8],
    work: &mut [u32],
    k: Known,
    role: u32,
    end: usize,
    left: usize,
    i: usize,
    q: usize,
    n: u32,
) -> Option<Counted>
    requires { (k.tape ≤ length work.old) × (k.count ≤ 65536) × (k.hidden ≤ 65536) × (n + left ≤ 65536) }
    ensures { passed result work.new ≡ sides_from (joint library.now text.now) k role end left i q n work.old }
{
    let t = k.tape;
    let mut at = i;
    let mut free = q;
    let mut count = n;
    for _ in 0..left {
        if !begins_at(&work[0..t], at, end) {
            return Some(Counted {
                count,
                next: at,
                free,
            });
        }
        let sides = type_sides(library, text, work, k, at, free)?;
        if t <= sides.next {
            return None;
        }
        at = sides.next + 1;
        if role_at(&work[0..t], sides.next) == role {
            free = sides.free;
            count += 1;
        }
    }
    None
}

// The equation whose tag is at i, before the end: its conditions are counted.
#[tactic(auto, unfolding(crate::specs::Equations::equation_at, crate::specs::Equations::after_conclusion))]
pub fn type_equation(
    library: &[u8],
    text: &[u8],
    work: &mut [u32],
    k: Known,
    end: usize,
    i: usize,
    q: usize,
) -> Option<Counted>
    requires { (k.tape ≤ length work.old) × (k.tape ≤ 65536) × (i < k.tape) × (k.count ≤ 65536) × (k.hidden ≤ 65536) }
    ensures { passed result work.new ≡ equation_at (joint library.now text.now) k end i q work.old }
{
    let t = k.tape;
    let conclusion = type_marked(
        library,
        text,
        work,
        k,
        roles::CONCLUSION,
        end,
        t,
        i + 1,
        q,
        0,
    )?;
    type_marked(
        library,
        text,
        work,
        k,
        roles::CONDITION,
        end,
        t,
        i + 1,
        conclusion.free,
        0,
    )
}

// a - b as a word.
#[tactic(auto, unfolding(crate::specs::Equations::span, meaning::specs::Lists::pick))]
pub fn span(a: usize, b: usize) -> u32
    ensures { result ≡ span a b }
{
    let d = a.saturating_sub(b);
    if d < 4294967295 {
        return d as u32;
    }
    0
}

// The row of the equation with the tag, whose nodes stand from q up to `free`.
#[tactic(auto, unfolding(crate::specs::Equations::row_of))]
fn equation_row(
    m: Module,
    position: u32,
    tag: u32,
    conditions: u32,
    q: usize,
    free: usize,
) -> EquationRow
    ensures { result ≡ row_of m position tag conditions q free }
{
    let nodes = m.nodes;
    let start = span(q, nodes);
    let count = span(free, q);
    EquationRow {
        home: m.home,
        position,
        tag,
        conditions,
        start,
        count,
    }
}

// The row of the equation whose tag is at i, with n conditions and nodes from q up to `free`.
#[tactic(auto, unfolding(crate::specs::Equations::stored))]
fn store_row(
    work: &mut [u32],
    k: Known,
    m: Module,
    position: u32,
    i: usize,
    q: usize,
    n: u32,
    free: usize,
)
    requires { (k.tape ≤ length work.old) × (m.rows < 2 ^ 32) }
    ensures { work.new ≡ stored k m position i q n free work.old }
{
    let t = k.tape;
    let rows = m.rows;
    let tag = name_at(&work[0..t], i);
    let row = equation_row(m, position, tag, n, q, free);
    let start = row.start;
    write_equation(work, rows as u32, position, row, start);
}

// The equation whose tag is at i, with its row.
#[tactic(auto, unfolding(crate::specs::Equations::turn_at, crate::specs::Equations::after_equation))]
fn type_next(
    library: &[u8],
    text: &[u8],
    work: &mut [u32],
    k: Known,
    m: Module,
    position: u32,
    i: usize,
    q: usize,
) -> Option<Counted>
    requires { (k.tape ≤ length work.old) × (k.tape ≤ 65536) × (i < k.tape) × (k.count ≤ 65536) × (k.hidden ≤ 65536) × (m.rows < 2 ^ 32) }
    ensures { passed result work.new ≡ turn_at (joint library.now text.now) k m position i q work.old }
{
    let end = m.end;
    let sides = type_equation(library, text, work, k, end, i, q)?;
    store_row(work, k, m, position, i, q, sides.count, sides.free);
    Some(sides)
}

// The equations of the module from i on; their nodes are written from q on. The first that is ill typed is told by its tag.
pub fn type_equations(
    library: &[u8],
    text: &[u8],
    work: &mut [u32],
    k: Known,
    m: Module,
    i: usize,
    q: usize,
) -> Result<Equated, u32>
    requires { (k.tape ≤ length work.old) × (k.tape ≤ 65536) × (m.end ≤ k.tape) × (k.count ≤ 65536) × (k.hidden ≤ 65536) × (m.rows < 2 ^ 32) }
    ensures { told result work.new ≡ equations_from (joint library.now text.now) k m k.tape 0 i q work.old }
{
    let t = k.tape;
    let end = m.end;
    let mut at = i;
    let mut free = q;
    for position in 0..t as u32 {
        if end <= at {
            return Ok(Equated {
                count: position,
                free,
            });
        }
        let tag = name_at(&work[0..t], at);
        let sides = type_next(library, text, work, k, m, position, at, free).ok_or(tag)?;
        at = sides.next;
        free = sides.free;
    }
    Ok(Equated {
        count: t as u32,
        free,
    })
}
