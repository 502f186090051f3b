// The checks of a module's own declarations, joined to what it imports: 15, 10 and 11, then 13, then 12.
ghost use Rattle.std.specs.Prelude.{◌≡◌, length};
ghost use Rattle.text_names.specs.Joint.{joint};
ghost use Rattle.form.specs.Memory.{part};
ghost use Rattle.form.specs.Verdicts.{told};
ghost use Rattle.own_declarations.specs.Sorts.{Ready};
ghost use Rattle.own_items.specs.Checking.{variables_by, declarations_by, RowsSmall, CheckRoom, OwnChecked};

use super::OwnRows;
use form::Refusal;
use form_rows::ROW_SIZE;
use own_declarations::Own;
use own_declarations::checks::{available, variables_right};
use unite_checks::consistency::consistent;

// 12, where the table of `own` has the visible rows, and the hidden ones behind them.
fn check_variables(
    library: &[u8],
    text: &[u8],
    work: &[u32],
    t: usize,
    own: Own,
    visible: u32,
    hidden: u32,
) -> Result<(), Refusal>
    requires ready { Ready work.now t own }
    requires rows_small { RowsSmall own visible }
    ensures { told (joint library.now text.now) result ≡ variables_by (joint library.now text.now) (part work.now 0 t) work.now own visible hidden }
{
    let from = own.from;
    let end = own.end;
    let rows = own.rows;
    let all = Own {
        from,
        end,
        rows,
        count: visible,
    };
    variables_right(
        library,
        text,
        work,
        t,
        all,
        rows + visible * ROW_SIZE,
        hidden,
    )
}

// 13, and then 12.
fn check_declarations(
    library: &[u8],
    text: &[u8],
    work: &[u32],
    t: usize,
    own: Own,
    visible: u32,
    hidden: u32,
) -> Result<(), Refusal>
    requires ready { Ready work.now t own }
    requires rows_small { RowsSmall own visible }
    ensures { told (joint library.now text.now) result ≡ declarations_by (joint library.now text.now) (part work.now 0 t) work.now own visible hidden }
{
    available(library, text, work, t, own)?;
    check_variables(library, text, work, t, own, visible, hidden)
}

// All of them: the names of the parameters stand at `parameters`, the visible rows and the own hidden ones behind them in the table of `own`,
// whose first rows are what the module imports. The order table is made at p.
pub fn own_checks(
    library: &[u8],
    text: &[u8],
    work: &mut [u32],
    t: usize,
    own: Own,
    parameters: u32,
    counts: OwnRows,
    p: u32,
) -> Result<(), Refusal>
    requires ready { Ready work.old t own }
    requires check_room { CheckRoom (length work.old) t own parameters counts p }
    ensures { OwnChecked (joint library.now text.now) t own parameters counts p work.old work.new result }
{
    let names = counts.parameter_count;
    let visible = counts.visible_count;
    let hidden = counts.hidden_count;
    let rows = own.rows;
    consistent(
        library,
        text,
        work,
        t,
        parameters,
        names,
        rows,
        visible + hidden,
        p,
    )?;
    check_declarations(library, text, work, t, own, visible, hidden)
}
