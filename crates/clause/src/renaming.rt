// A form renamed, 14, and a form united with another: each is made in a block, and checked.
ghost use Rattle.std.specs.Prelude.{length};
ghost use Rattle.text_names.specs.Joint.{joint};
ghost use Rattle.unite_checks.specs.Steps.{MakeRoom, Renamed, RenamedForm, JoinRoom, JoinedForm};
ghost use Rattle.clause.specs.Either.{Renames};

use super::{clause_right, formals_noted};
use clause_translation::{Mode, modes};
use form::{Block, Form, Refusal};
use unite::{empty_form, unite, unite_hidden, unite_seen};
use unite_checks::checked::checked;

// g, with the pairs' new names: made step by step as a bound form is.
fn renamed(
    library: &[u8],
    text: &[u8],
    work: &mut [u32],
    t: usize,
    m: Mode,
    g: Form,
    b: Block,
) -> Result<Form, Refusal>
    requires make_room { MakeRoom (length work.old) t g b }
    requires renames { Renames m }
    ensures { RenamedForm (joint library.now text.now) t work.old m.pairs g b result work.new }
{
    let notes = b.visible_notes;
    let e = empty_form(b);
    let seen = unite_seen(library, text, work, t, m, g, e, notes);
    formals_noted(library, text, work, t, m, seen, notes);
    let f = unite_hidden(library, text, work, t, m, g, seen, b, notes);
    checked(library, text, work, t, f, b)
}

// The renaming of g by the pairs on the tape from `pairs` on: 14.
pub fn rename(
    library: &[u8],
    text: &[u8],
    work: &mut [u32],
    t: usize,
    pairs: u32,
    g: Form,
    b: Block,
) -> Result<Form, Refusal>
    requires { MakeRoom (length work.old) t g b }
    ensures { Renamed (joint library.now text.now) t work.old pairs g b result work.new }
{
    let m = Mode {
        kind: modes::RENAMING,
        pairs,
        parameter: 0,
        visible: 0,
        count: 0,
    };
    clause_right(library, text, work, t, m, g, g)?;
    renamed(library, text, work, t, m, g, b)
}

// g united with f, which lies in the block.
pub fn join(
    library: &[u8],
    text: &[u8],
    work: &mut [u32],
    t: usize,
    g: Form,
    f: Form,
    b: Block,
) -> Result<Form, Refusal>
    requires { JoinRoom (length work.old) t g f b }
    ensures { JoinedForm (joint library.now text.now) t work.old g f b result work.new }
{
    let m = Mode {
        kind: modes::AS_IS,
        pairs: 0,
        parameter: 0,
        visible: 0,
        count: 0,
    };
    let u = unite(library, text, work, t, m, g, f, b);
    checked(library, text, work, t, u, b)
}
