// A module's own parameters and items, joined to what it imports.
ghost use Rattle.std.specs.Prelude.{length};
ghost use Rattle.text_names.specs.Joint.{joint};
ghost use Rattle.own_declarations.specs.Sorts.{Ready};
ghost use Rattle.own_items.specs.Joined.{OwnRoom, OwnMade};

use super::OwnRows;
use super::joining::join_visible;
use super::parameters::own_parameters;
use own_declarations::Own;
use own_declarations::rows::own_rows;

// The module's parameters behind the n at `parameters`; its visible items joined to the rows of `own`, and its hidden ones
// behind them.
pub fn own_items(
    library: &[u8],
    text: &[u8],
    work: &mut [u32],
    t: usize,
    own: Own,
    parameters: u32,
    n: u32,
) -> OwnRows
    requires ready { Ready work.old t own }
    requires own_room { OwnRoom (length work.old) t own parameters n }
    ensures { OwnMade (joint library.now text.now) t own parameters n work.old work.new result }
{
    let rows = own.rows;
    let count = own.count;
    let parameter_count = own_parameters(work, t, own, parameters, n);
    let visible_count = join_visible(library, text, work, t, own, rows, count);
    let all = own_rows(library, text, work, t, own, true, rows, visible_count);
    let hidden_count = all - visible_count;
    OwnRows {
        parameter_count,
        visible_count,
        hidden_count,
    }
}
