// One normal form united with another, which lies in a block of the working memory, through a translation: its parameters that are no
// others go behind, its items are absorbed and noted, and its equations are joined through the notes.
#![tactic(auto)]

ghost use Rattle.std.specs.Prelude.{◌≡◌, ◌≤◌, length};
ghost use Rattle.text_names.specs.Joint.{joint};
ghost use Rattle.unite_items.specs.Turns.{RoomWithin, Room};
ghost use Rattle.unite.specs.Rooms.{SlotRoom, SlotsRoom, HiddenRoom, HiddenRoomWithin, UniteRoom};
ghost use Rattle.unite.specs.United.{empty_in, with_items, SlotUnited, SlotsUnited, VisibleUnited, ItemsUnited};
ghost use Rattle.unite.specs.United.{HiddenUnited, HiddenUnitedWithin, SeenUnited, United};

use clause_checks::parameters::copy_parameter;
use clause_translation::Mode;
use form::{Block, Form, SLOT_STEP};
use unite_equations::absorb_equations;
use unite_items::{absorb_items, absorb_within};
use unite_nodes::Notes;
use unite_parameters::is_parameter_of;

// The form in the block that has nothing.
pub fn empty_form(b: Block) -> Form
    ensures { result ≡ empty_in b }
{
    Form {
        parameters: b.parameters,
        parameter_count: 0,
        visible: b.visible,
        visible_count: 0,
        hidden: b.hidden,
        hidden_count: 0,
        equations: b.equations,
        equation_count: 0,
        nodes: b.nodes,
        node_count: 0,
    }
}

// The form with other numbers of parameters, of visible and of hidden items.
fn with_items(f: Form, parameters: u32, visible: u32, hidden: u32) -> Form
    ensures { result ≡ with_items f parameters visible hidden }
{
    Form {
        parameter_count: parameters,
        visible_count: visible,
        hidden_count: hidden,
        ..f
    }
}

// The k-th parameter of g behind n of the form f, unless it is one of f's own. How many there are after.
fn unite_parameter(
    library: &[u8],
    text: &[u8],
    work: &mut [u32],
    t: usize,
    g: Form,
    f: Form,
    k: u32,
    n: u32,
) -> u32
    requires { SlotRoom (length work.old) t g f k n }
    ensures { SlotUnited (joint library.now text.now) t work.old g f k n result work.new }
{
    let source = g.parameters;
    let base = f.parameters;
    let q = source as usize + k as usize * SLOT_STEP;
    if is_parameter_of(library, text, work, t, f, g, q) {
        return n;
    }
    copy_parameter(work, q, base as usize + n as usize * SLOT_STEP);
    n + 1
}

// The parameters of g that are none of f's, behind those of f.
pub fn unite_parameters(
    library: &[u8],
    text: &[u8],
    work: &mut [u32],
    t: usize,
    g: Form,
    f: Form,
) -> Form
    requires { SlotsRoom (length work.old) t g f }
    ensures { SlotsUnited (joint library.now text.now) t work.old g f result work.new }
{
    let more = g.parameter_count;
    let mut n = f.parameter_count;
    for k in 0..more {
        n = unite_parameter(library, text, work, t, g, f, k, n);
    }
    with_items(f, n, f.visible_count, f.hidden_count)
}

// The visible items of g, moved, absorbed into those of f, and noted from `notes` on. Where `drop` says so, those that stand in the mode's
// parameter are left out.
pub fn unite_visible(
    library: &[u8],
    text: &[u8],
    work: &mut [u32],
    t: usize,
    m: Mode,
    drop: bool,
    g: Form,
    f: Form,
    notes: u32,
) -> Form
    requires { Room (length work.old) t m g.visible g.visible_count f.visible f.visible_count notes }
    ensures { VisibleUnited (joint library.now text.now) t work.old m drop g f notes result work.new }
{
    let source = g.visible;
    let rows = g.visible_count;
    let base = f.visible;
    let have = f.visible_count;
    let n = absorb_items(
        library, text, work, t, m, true, drop, source, rows, base, have, notes,
    );
    with_items(f, f.parameter_count, n, f.hidden_count)
}

// The hidden items of g, moved, absorbed into those of f while these are less than `cap`, and noted from `notes` on.
fn unite_hidden_items(
    library: &[u8],
    text: &[u8],
    work: &mut [u32],
    t: usize,
    m: Mode,
    g: Form,
    f: Form,
    notes: u32,
    cap: u32,
) -> Form
    requires room_within { RoomWithin (length work.old) t m g.hidden g.hidden_count f.hidden cap notes }
    requires hidden_count_bound { f.hidden_count ≤ cap }
    ensures { ItemsUnited (joint library.now text.now) t work.old m g f notes cap result work.new }
{
    let source = g.hidden;
    let rows = g.hidden_count;
    let base = f.hidden;
    let have = f.hidden_count;
    let n = absorb_within(
        library, text, work, t, m, false, false, source, rows, base, have, notes, cap,
    );
    with_items(f, f.parameter_count, f.visible_count, n)
}

// The hidden items and the equations of g, moved, into those of f, whose visible items have taken up those of g: where each went is noted
// from `notes` on. No more than `cap` hidden items: where these are all, not all may have come in, and the equations say nothing.
pub fn unite_hidden_within(
    library: &[u8],
    text: &[u8],
    work: &mut [u32],
    t: usize,
    m: Mode,
    g: Form,
    f: Form,
    b: Block,
    notes: u32,
    cap: u32,
) -> Form
    requires { HiddenRoomWithin (length work.old) t m g f b notes cap }
    ensures { HiddenUnitedWithin (joint library.now text.now) t work.old m g f b notes cap result work.new }
{
    let hidden = b.hidden_notes;
    let more = g.hidden_count;
    let o = Notes {
        visible: notes,
        hidden,
        equation_room: b.equation_room,
        node_room: b.node_room,
    };
    // This case stands apart for the stack, not for time: joined from two places, equations have no room in the frame that items come in.
    if more == 0 {
        return absorb_equations(library, text, work, t, g, o, f);
    }
    let h = unite_hidden_items(library, text, work, t, m, g, f, hidden, cap);
    absorb_equations(library, text, work, t, g, o, h)
}

// The same with room for all of them.
pub fn unite_hidden(
    library: &[u8],
    text: &[u8],
    work: &mut [u32],
    t: usize,
    m: Mode,
    g: Form,
    f: Form,
    b: Block,
    notes: u32,
) -> Form
    requires { HiddenRoom (length work.old) t m g f b notes }
    ensures { HiddenUnited (joint library.now text.now) t work.old m g f b notes result work.new }
{
    let have = f.hidden_count;
    let more = g.hidden_count;
    unite_hidden_within(library, text, work, t, m, g, f, b, notes, have + more)
}

// The parameters and the visible items of g, moved, united with those of f. Called by all unions, so that its frame is in none of theirs.
pub fn unite_seen(
    library: &[u8],
    text: &[u8],
    work: &mut [u32],
    t: usize,
    m: Mode,
    g: Form,
    f: Form,
    notes: u32,
) -> Form
    requires slots_room { SlotsRoom (length work.old) t g f }
    requires room { Room (length work.old) t m g.visible g.visible_count f.visible f.visible_count notes }
    ensures { SeenUnited (joint library.now text.now) t work.old m g f notes result work.new }
{
    let named = unite_parameters(library, text, work, t, g, f);
    unite_visible(library, text, work, t, m, false, g, named, notes)
}

// All of g, moved, united with f, which lies in the block.
pub fn unite(
    library: &[u8],
    text: &[u8],
    work: &mut [u32],
    t: usize,
    m: Mode,
    g: Form,
    f: Form,
    b: Block,
) -> Form
    requires { UniteRoom (length work.old) t m g f b }
    ensures { United (joint library.now text.now) t work.old m g f b result work.new }
{
    let notes = b.visible_notes;
    let seen = unite_seen(library, text, work, t, m, g, f, notes);
    unite_hidden(library, text, work, t, m, g, seen, b, notes)
}
