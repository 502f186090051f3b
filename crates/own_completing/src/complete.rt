// A module's own declarations joined to what it imports: its items, checked; then its equations, 17, and room, 18.
ghost use Rattle.std.specs.Prelude.{◌≡◌, ◌+◌, length};
ghost use Rattle.text_names.specs.Joint.{joint};
ghost use Rattle.form_layout.specs.Layout.{joining_block, second_block};
ghost use Rattle.own_completing.specs.Room.{TotalsRight};
ghost use Rattle.own_completing.specs.Completed.{Counted, Rooms, own_of, CompleteRoom, ItemsJoined, EquationsJoined};

use super::Totals;
use super::said::{join_made, said_form, seen_form};
use form::{Block, Form, Refusal};
use form_layout::{first_block, joining_block};
use own_declarations::Own;
use own_equations::type_own;
use own_items::OwnRows;
use own_items::checking::own_checks;
use own_items::items::own_items;

// The entries from `from` up to `end`, with the visible rows of f.
fn own_of(from: u32, end: u32, f: Form) -> Own
    ensures { result ≡ own_of from end f }
{
    Own {
        from,
        end,
        rows: f.visible,
        count: f.visible_count,
    }
}

// The own items of the module whose entries stand from `from` up to `end` joined to those of f, which lies in the block for it, and checked:
// how many rows there are of each kind.
pub fn join_items(
    library: &[u8],
    text: &[u8],
    work: &mut [u32],
    t: usize,
    from: u32,
    end: u32,
    f: Form,
) -> Result<OwnRows, Refusal>
    requires { CompleteRoom (length work.old) t from end f }
    ensures { ItemsJoined (joint library.now text.now) t work.old from end f result work.new }
{
    let own = own_of(from, end, f);
    let b = joining_block();
    let parameters = f.parameters;
    let names = f.parameter_count;
    let order = b.order;
    let counts = own_items(library, text, work, t, own, parameters, names);
    own_checks(library, text, work, t, own, parameters, counts, order)?;
    Ok(counts)
}

// What is visible and the module's own hidden items stand there: the equations typed, 17, and all joined, 18.
fn complete_equations(
    library: &[u8],
    text: &[u8],
    work: &mut [u32],
    t: usize,
    home: u32,
    own: Own,
    f: Form,
    counts: OwnRows,
    b: Block,
    scratch: u32,
    totals: Totals,
) -> Result<Form, Refusal>
    requires rooms { Rooms (length work.old) t own f b scratch }
    requires counted { Counted own f counts }
    requires totals_right { TotalsRight totals }
    ensures { EquationsJoined (joint library.now text.now) t work.old home own f counts b (scratch + 131072) totals result work.new }
{
    let from = own.from;
    let end = own.end;
    let said = said_form(f, counts, scratch);
    let made = type_own(
        library,
        text,
        work,
        t,
        said,
        home,
        from as usize,
        end as usize,
    );
    let seen = seen_form(f, counts);
    join_made(library, text, work, t, made, seen, b, totals)
}

// Module number `home`, whose own items have joined those of f: its equations typed, 17, and all joined, 18.
pub fn join_equations(
    library: &[u8],
    text: &[u8],
    work: &mut [u32],
    t: usize,
    home: u32,
    from: u32,
    end: u32,
    f: Form,
    counts: OwnRows,
    totals: Totals,
) -> Result<Form, Refusal>
    requires complete_room { CompleteRoom (length work.old) t from end f }
    requires counted { Counted (own_of from end f) f counts }
    requires totals_right { TotalsRight totals }
    ensures { EquationsJoined (joint library.now text.now) t work.old home (own_of from end f) f counts joining_block second_block.high totals result work.new }
{
    let own = own_of(from, end, f);
    let b = joining_block();
    let c = first_block();
    complete_equations(
        library, text, work, t, home, own, f, counts, b, c.low, totals,
    )
}
