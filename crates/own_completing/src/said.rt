// What a module itself says, as a form: what it sees, its own hidden items, and its equations, which are typed into scratch memory. And that
// form joined to what the module imports.
ghost use Rattle.std.specs.Prelude.{◌≡◌, leb, length};
ghost use Rattle.text_names.specs.Joint.{joint};
ghost use Rattle.unite.specs.United.{with_items};
ghost use Rattle.own_completing.specs.Hidden.{JoinRoom};
ghost use Rattle.own_completing.specs.Room.{TotalsRight};
ghost use Rattle.own_completing.specs.Said.{said_form, SaidRoom, RoomMade, SaidJoined, MadeJoined};

use super::Totals;
use super::hidden::join_hidden;
use super::room::fitting_all;
use form::{Block, Culprit, Form, Refusal};
use form_rows::ROW_SIZE;
use meaning::numbers;
use own_items::OwnRows;

// The form with no equations yet: those that come have their rows from `scratch` on, and their nodes behind.
pub fn said_form(f: Form, counts: OwnRows, scratch: u32) -> Form
    requires { SaidRoom f counts scratch }
    ensures { result ≡ said_form f counts scratch }
{
    let visible = f.visible;
    let visible_count = counts.visible_count;
    Form {
        parameters: f.parameters,
        parameter_count: counts.parameter_count,
        visible,
        visible_count,
        hidden: visible + visible_count * ROW_SIZE,
        hidden_count: counts.hidden_count,
        equations: scratch,
        equation_count: 0,
        nodes: scratch + 65536,
        node_count: 0,
    }
}

// The form of what is imported, with all names of parameters and all visible rows.
pub fn seen_form(f: Form, counts: OwnRows) -> Form
    ensures { result ≡ with_items f counts.parameter_count counts.visible_count f.hidden_count }
{
    Form {
        parameter_count: counts.parameter_count,
        visible_count: counts.visible_count,
        ..f
    }
}

// Are the nodes no more than a module's entries make?
fn few_nodes(g: Form) -> bool
    ensures { result ≡ leb g.node_count 65536 }
{
    g.node_count <= 65536
}

// What the module says, joined to what it imports and sees; and its room.
fn join_said(
    library: &[u8],
    text: &[u8],
    work: &mut [u32],
    t: usize,
    g: Form,
    f: Form,
    b: Block,
    totals: Totals,
) -> Result<Form, Refusal>
    requires join_room { JoinRoom (length work.old) t g f b }
    requires totals_right { TotalsRight totals }
    ensures { SaidJoined (joint library.now text.now) t work.old g f b totals result work.new }
{
    if few_nodes(g) {
        let h = join_hidden(library, text, work, t, g, f, b);
        return fitting_all(h, totals);
    }
    Err(Refusal {
        number: numbers::NO_ROOM,
        culprit: Culprit { name: 0, actual: 0 },
    })
}

// The same, where the equations could be typed.
pub fn join_made(
    library: &[u8],
    text: &[u8],
    work: &mut [u32],
    t: usize,
    made: Result<Form, Refusal>,
    f: Form,
    b: Block,
    totals: Totals,
) -> Result<Form, Refusal>
    requires room_made { RoomMade (length work.old) t made f b }
    requires totals_right { TotalsRight totals }
    ensures { MadeJoined (joint library.now text.now) t work.old made f b totals result work.new }
{
    let g = made?;
    join_said(library, text, work, t, g, f, b, totals)
}
