// A parameter of a form bound to a form: 15, 22 to 27, and formal items replaced by actual ones. The form is made in a block, and checked.
#![tactic(auto)]

pub mod renaming;

ghost use Rattle.std.specs.Prelude.{◌≡◌, ◌≤◌, length};
ghost use Rattle.text_names.specs.Joint.{joint};
ghost use Rattle.form.specs.Memory.{part};
ghost use Rattle.form.specs.Verdicts.{told};
ghost use Rattle.unite_checks.specs.Steps.{Bound};
ghost use Rattle.clause.specs.Rooms.{as_is, binding_mode, OwnRoom, BindRoom, StepRoom, SeenRoom};
ghost use Rattle.clause.specs.Binding.{named_in, pairs_checked, OwnBound, RowsBound, HiddenBound, BoundForm};
ghost use Rattle.clause.specs.Either.{ClauseRight, NoteStep, NotesMade};

use clause_checks::notes::note_formals;
use clause_checks::parameters::{has_parameter, keep_parameters};
use clause_checks::renamings::wrong_renaming;
use clause_mistakes::bindings::pairs_right;
use clause_mistakes::formals::unpaired;
use clause_translation::{Mode, modes};
use form::{Block, Culprit, Form, Refusal};
use meaning::numbers;
use unite::{unite_hidden, unite_seen, unite_visible};
use unite_checks::checked::checked;

// The mode that leaves rows as they are.
fn as_is() -> Mode
    ensures { result ≡ as_is }
{
    Mode {
        kind: modes::AS_IS,
        pairs: 0,
        parameter: 0,
        visible: 0,
        count: 0,
    }
}

// The mode that binds the items of g that stand in the parameter p.
fn binding_mode(p: u32, pairs: u32, g: Form) -> Mode
    ensures { result ≡ binding_mode p pairs g }
{
    Mode {
        kind: modes::BINDING,
        pairs,
        parameter: p,
        visible: g.visible,
        count: g.visible_count,
    }
}

// The form in the block that has so many parameters, and nothing else.
fn named_form(b: Block, names: u32) -> Form
    ensures { result ≡ named_in b names }
{
    Form {
        parameters: b.parameters,
        parameter_count: names,
        visible: b.visible,
        visible_count: 0,
        hidden: b.hidden,
        hidden_count: 0,
        equations: b.equations,
        equation_count: 0,
        nodes: b.nodes,
        node_count: 0,
    }
}

// What is left of g's parameters, and of its visible items: those that are not formal, moved. The notes of g's rows stand from
// b.visible_notes on.
fn bound_own(
    library: &[u8],
    text: &[u8],
    work: &mut [u32],
    t: usize,
    m: Mode,
    g: Form,
    b: Block,
) -> Form
    requires { OwnRoom (length work.old) t m g b }
    ensures { OwnBound (joint library.now text.now) t work.old m g b result work.new }
{
    let p = m.parameter;
    let notes = b.visible_notes;
    let none = named_form(b, 0);
    let n = keep_parameters(library, text, work, g, p, none);
    let f = named_form(b, n);
    unite_visible(library, text, work, t, m, true, g, f, notes)
}

// These, and then the actual form's: its parameters are held against what is left of g, before its visible items join that. Their notes
// stand 1024 words behind those of g's rows.
fn bound_rows(
    library: &[u8],
    text: &[u8],
    work: &mut [u32],
    t: usize,
    m: Mode,
    g: Form,
    actual: Form,
    b: Block,
) -> Form
    requires { StepRoom (length work.old) t m g actual b }
    ensures { RowsBound (joint library.now text.now) t work.old m g actual b result work.new }
{
    let notes = b.visible_notes;
    let own = bound_own(library, text, work, t, m, g, b);
    unite_seen(library, text, work, t, as_is(), actual, own, notes + 1024)
}

// The notes of the formal rows that a clause's mode has: where the actual items are. A renaming has none.
fn formals_noted(
    library: &[u8],
    text: &[u8],
    work: &mut [u32],
    t: usize,
    m: Mode,
    y: Form,
    notes: u32,
)
    requires { NoteStep (length work.old) t m y notes }
    ensures { NotesMade (joint library.now text.now) t work.old m y notes work.new }
{
    let kind = m.kind;
    if kind == modes::BINDING {
        note_formals(library, text, work, t, m, y, notes);
        return;
    }
}

// The hidden items and the equations: those of g, moved, and then the actual form's.
fn bound_hidden(
    library: &[u8],
    text: &[u8],
    work: &mut [u32],
    t: usize,
    m: Mode,
    g: Form,
    actual: Form,
    f: Form,
    b: Block,
) -> Form
    requires { SeenRoom (length work.old) t m g actual f b }
    ensures { HiddenBound (joint library.now text.now) t work.old m g actual f b result work.new }
{
    let notes = b.visible_notes;
    let own = unite_hidden(library, text, work, t, m, g, f, b, notes);
    unite_hidden(
        library,
        text,
        work,
        t,
        as_is(),
        actual,
        own,
        b,
        notes + 1024,
    )
}

// g with its formal items replaced, united with the actual form.
fn bound(
    library: &[u8],
    text: &[u8],
    work: &mut [u32],
    t: usize,
    m: Mode,
    g: Form,
    actual: Form,
    b: Block,
) -> Result<Form, Refusal>
    requires { StepRoom (length work.old) t m g actual b }
    ensures { BoundForm (joint library.now text.now) t work.old m g actual b result work.new }
{
    let seen = bound_rows(library, text, work, t, m, g, actual, b);
    let notes = b.visible_notes;
    formals_noted(library, text, work, t, m, seen, notes);
    let f = bound_hidden(library, text, work, t, m, g, actual, seen, b);
    checked(library, text, work, t, f, b)
}

// 22 to 27: the pairs, and then the formal names without one.
fn binding_right(
    library: &[u8],
    text: &[u8],
    work: &[u32],
    t: usize,
    m: Mode,
    actual: Form,
) -> Result<(), Refusal>
    requires t_in_bounds { t ≤ length work.now }
    requires kind_value { m.kind ≡ 2 }
    ensures { told (joint library.now text.now) result ≡ pairs_checked (joint library.now text.now) (part work.now 0 t) work.now m actual }
{
    pairs_right(library, text, work, t, m, actual)?;
    unpaired(library, text, work, t, m)
}

// What is wrong with a clause of g, by its mode: 14, or 22 to 27. What is looked at for it is gone before anything is made.
fn clause_right(
    library: &[u8],
    text: &[u8],
    work: &[u32],
    t: usize,
    m: Mode,
    g: Form,
    actual: Form,
) -> Result<(), Refusal>
    requires { t ≤ length work.now }
    ensures { ClauseRight (joint library.now text.now) t work.now m g actual result }
{
    let kind = m.kind;
    if kind == modes::BINDING {
        return binding_right(library, text, work, t, m, actual);
    }
    let pairs = m.pairs;
    let visible = g.visible;
    let count = g.visible_count;
    wrong_renaming(library, text, work, t, pairs, visible, count)
}

// The parameter p of g bound to the actual form by the pairs on the tape from `pairs` on: 15, 22 to 27.
pub fn bind(
    library: &[u8],
    text: &[u8],
    work: &mut [u32],
    t: usize,
    p: u32,
    pairs: u32,
    g: Form,
    actual: Form,
    b: Block,
) -> Result<Form, Refusal>
    requires { BindRoom (length work.old) t g actual b }
    ensures { Bound (joint library.now text.now) t work.old p pairs g actual b result work.new }
{
    if has_parameter(library, text, work, g, p) {
        let m = binding_mode(p, pairs, g);
        clause_right(library, text, work, t, m, g, actual)?;
        return bound(library, text, work, t, m, g, actual, b);
    }
    Err(Refusal {
        number: numbers::BAD_PARAMETER,
        culprit: Culprit { name: p, actual: 0 },
    })
}
