// The checks after each clause and each union: 15, 10, 11 and room, 18.
ghost use Rattle.std.specs.Prelude.{◌≡◌, ◌+◌, ◌≤◌, length};
ghost use Rattle.text_names.specs.Joint.{joint};
ghost use Rattle.unite_checks.specs.Checked.{CheckRoom, fitting, CheckedForm};

use super::consistency::consistent;
use super::room::room;
use form::{Block, Form, Refusal};

// The form, if it fits.
fn fitting(f: Form) -> Result<Form, Refusal>
    requires { f.visible_count + f.hidden_count ≤ 131072 }
    ensures { result ≡ fitting f }
{
    let parameters = f.parameter_count;
    let items = f.visible_count + f.hidden_count;
    let equations = f.equation_count;
    room(parameters, items, equations)?;
    Ok(f)
}

// The form of the block, if it is consistent and fits.
pub fn checked(
    library: &[u8],
    text: &[u8],
    work: &mut [u32],
    t: usize,
    f: Form,
    b: Block,
) -> Result<Form, Refusal>
    requires { CheckRoom (length work.old) t f b }
    ensures { CheckedForm (joint library.now text.now) t work.old f b result work.new }
{
    let parameters = f.parameters;
    let names = f.parameter_count;
    let visible = f.visible;
    let rows = f.visible_count;
    let order = b.order;
    consistent(
        library, text, work, t, parameters, names, visible, rows, order,
    )?;
    fitting(f)
}
