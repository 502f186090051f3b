// Where things lie in the working memory: the tape, the block in which a module's imports are united and its own items join them, two blocks
// in which the clauses of an import expression work in turn, and the normal forms that are kept, with a table of where each module's is.
#![tactic(auto)]

ghost use Rattle.std.specs.Prelude.{◌≡◌, ◌+◌, ◌*◌, ◌≤◌};
ghost use Rattle.form_layout.specs.Layout.{block_span, block_at, tape_end, joining_block, first_block, second_block, kept_start, table_start};

use form::{Block, EQUATION_SIZE, SLOT_SIZE};
use form_rows::ROW_SIZE;

// A block from `low` on, with room for so many parameters, visible and hidden rows, equations, and rows of a source.
fn block_at(
    low: u32,
    names: u32,
    rows: u32,
    hidden_rows: u32,
    equations: u32,
    sources: u32,
) -> Block
    requires { low + block_span names rows hidden_rows equations sources ≤ 1073741824 }
    ensures { result ≡ block_at low names rows hidden_rows equations sources }
{
    let visible = low + names * SLOT_SIZE;
    let hidden = visible + rows * ROW_SIZE;
    let first = hidden + hidden_rows * ROW_SIZE;
    let nodes = first + equations * EQUATION_SIZE;
    let visible_notes = nodes + equations * 64;
    let hidden_notes = visible_notes + sources;
    let order = hidden_notes + sources;
    Block {
        low,
        parameters: low,
        visible,
        hidden,
        equations: first,
        nodes,
        visible_notes,
        hidden_notes,
        order,
        high: order + names + rows,
        equation_room: equations,
        node_room: equations * 64,
    }
}

// Where the tape ends at the latest.
pub fn tape_end() -> u32
    ensures { result ≡ tape_end }
{
    65536
}

// Where imports are united, and a module's own items join them.
pub fn joining_block() -> Block
    ensures { result ≡ joining_block }
{
    block_at(65536, 32776, 33280, 1024, 512, 33280)
}

// Where the clauses of an import expression work in turn.
pub fn first_block() -> Block
    ensures { result ≡ first_block }
{
    block_at(849432, 16, 1024, 1024, 512, 2048)
}

pub fn second_block() -> Block
    ensures { result ≡ second_block }
{
    block_at(924232, 16, 1024, 1024, 512, 2048)
}

// Where the normal forms of evaluated modules begin, and the table of them.
pub fn kept_start() -> u32
    ensures { result ≡ kept_start }
{
    999032
}

pub fn table_start() -> u32
    ensures { result ≡ table_start }
{
    1024632
}
