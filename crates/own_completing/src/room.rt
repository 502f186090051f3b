// Room, 18: for the normal form, and for those of all modules evaluated so far together with it.
ghost use Rattle.std.specs.Prelude.{◌≡◌};
ghost use Rattle.own_completing.specs.Room.{FewIn, fitting_together, fitting_all};

use super::Totals;
use form::{Form, Refusal};
use unite_checks::room::{room, total_room};

// The form, if all together fit.
fn fitting_together(f: Form, totals: Totals) -> Result<Form, Refusal>
    requires { FewIn f totals }
    ensures { result ≡ fitting_together f totals }
{
    let items = totals.items + (f.visible_count + f.hidden_count);
    let equations = totals.equations + f.equation_count;
    let nodes = totals.nodes + f.node_count;
    total_room(items, equations, nodes)?;
    Ok(f)
}

// The form, if it fits, and all together do.
pub fn fitting_all(f: Form, totals: Totals) -> Result<Form, Refusal>
    requires { FewIn f totals }
    ensures { result ≡ fitting_all f totals }
{
    let parameters = f.parameter_count;
    let items = f.visible_count + f.hidden_count;
    let equations = f.equation_count;
    room(parameters, items, equations)?;
    fitting_together(f, totals)
}
