// The clauses of an import expression, one after the other, in two blocks in turn.
ghost use Rattle.std.specs.Prelude.{◌≡◌, ◌+◌, ◌≤◌, ◌<◌, length};
ghost use Rattle.text_names.specs.Joint.{joint};
ghost use Rattle.modules.specs.Modules.{heads_in};
ghost use Rattle.imports.specs.Clausal.{ClauseRoom, BoundAt, ClauseMade, turn_block, ClausesRoom, ClausesMade, starts_clause};

use super::runs::{named_form, run_end};
use clause::bind;
use clause::renaming::rename;
use form::{Block, Form, Refusal};
use form_layout::{first_block, second_block};
use form_rows::entries::{name_at, role_at};
use modules::Heads;
use tape::roles;

// The binding whose parameter stands at i, and its actual module at `last`.
fn bind_at(
    library: &[u8],
    text: &[u8],
    work: &mut [u32],
    t: usize,
    h: &Heads,
    i: u32,
    last: u32,
    g: Form,
    b: Block,
) -> Result<Form, Refusal>
    requires { ClauseRoom work.old t (heads_in h.now) i g b }
    ensures { BoundAt (joint library.now text.now) t work.old (heads_in h.now) i last g b result work.new }
{
    let p = name_at(&work[0..t], i as usize);
    let actual = named_form(library, text, work, t, h, last as usize);
    bind(library, text, work, t, p, i + 1, g, actual, b)
}

// The clause at i, whose end is `end`.
fn clause_at(
    library: &[u8],
    text: &[u8],
    work: &mut [u32],
    t: usize,
    h: &Heads,
    i: u32,
    end: u32,
    g: Form,
    b: Block,
) -> Result<Form, Refusal>
    requires clause_room { ClauseRoom work.old t (heads_in h.now) i g b }
    requires le_end { 1 ≤ end }
    ensures { ClauseMade (joint library.now text.now) t work.old (heads_in h.now) i end g b result work.new }
{
    if role_at(&work[0..t], i as usize) == roles::RENAMING {
        return rename(library, text, work, t, i + 1, g, b);
    }
    bind_at(library, text, work, t, h, i, end - 1, g, b)
}

// The block whose turn it is.
fn turn_block(first: bool) -> Block
    ensures { result ≡ turn_block first }
{
    if first {
        return first_block();
    }
    second_block()
}

// The clause at i, whose end is `end`, in the block whose turn it is.
fn clause_turn(
    library: &[u8],
    text: &[u8],
    work: &mut [u32],
    t: usize,
    h: &Heads,
    i: u32,
    end: u32,
    g: Form,
    first: bool,
) -> Result<Form, Refusal>
    requires clauses_room { ClausesRoom work.old t (heads_in h.now) i g first }
    requires le_end { 1 ≤ end }
    ensures { ClauseMade (joint library.now text.now) t work.old (heads_in h.now) i end g (turn_block first) result work.new }
{
    let b = turn_block(first);
    clause_at(library, text, work, t, h, i, end, g, b)
}

// Does a clause begin at i?
fn starts_clause(tape: &[u32], i: u32) -> bool
    ensures { result ≡ starts_clause tape.now i }
{
    let role = role_at(tape, i as usize);
    if role == roles::RENAMING {
        return true;
    }
    role == roles::BINDING
}

// The clauses from i on, of g, which is not in the block whose turn it is.
pub fn clauses_from(
    library: &[u8],
    text: &[u8],
    work: &mut [u32],
    t: usize,
    h: &Heads,
    left: u32,
    i: u32,
    g: Form,
    first: bool,
) -> Result<Form, Refusal>
    requires { ClausesRoom work.old t (heads_in h.now) i g first }
    ensures { ClausesMade (joint library.now text.now) t work.old (heads_in h.now) left i g result work.new }
{
    let mut at = i;
    let mut f = g;
    let mut turn = first;
    for n in (0..left).rev() {
        if starts_clause(&work[0..t], at) {
            let end = run_end(&work[0..t], roles::OLD, at + 1);
            f = clause_turn(library, text, work, t, h, at, end, f, turn)?;
            at = end;
            turn = !turn;
        } else {
            return Ok(f);
        }
    }
    Ok(f)
}
