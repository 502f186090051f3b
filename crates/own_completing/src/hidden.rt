// What a module itself says comes into the form of what it imports, which has taken up its visible items: its hidden items and its equations.
ghost use Rattle.std.specs.Prelude.{◌+◌, ◌≤◌, length};
ghost use Rattle.text_names.specs.Joint.{joint};
ghost use Rattle.own_completing.specs.Hidden.{SameNoted, JoinRoom, HiddenJoined};

use clause_translation::{Mode, modes};
use form::{Block, Form};
use form_rows::entries::put_word;
use unite::unite_hidden_within;

// The notes of n rows that stay where they are.
fn note_same(work: &mut [u32], base: u32, n: u32)
    requires { base + n ≤ length work.old }
    ensures { SameNoted work.old base n work.new }
{
    for i in 0..n {
        put_word(work, base as usize + i as usize, i);
    }
}

// The hidden items and the equations of g into f, which has its parameters and its visible rows: no more than 1,024 hidden items. Out of line, so that
// what it needs has no room in the frame below which terms are typed.
#[inline(never)]
pub fn join_hidden(
    library: &[u8],
    text: &[u8],
    work: &mut [u32],
    t: usize,
    g: Form,
    f: Form,
    b: Block,
) -> Form
    requires join_room { JoinRoom (length work.old) t g f b }
    requires node_count_bound { g.node_count ≤ 65536 }
    ensures { HiddenJoined (joint library.now text.now) t work.old g f b result work.new }
{
    let m = Mode {
        kind: modes::AS_IS,
        pairs: 0,
        parameter: 0,
        visible: 0,
        count: 0,
    };
    let notes = b.visible_notes;
    let n = g.visible_count;
    note_same(work, notes, n);
    unite_hidden_within(library, text, work, t, m, g, f, b, notes, 1024)
}
