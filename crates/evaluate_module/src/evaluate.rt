// The four steps for one module, after which its normal form is kept.
ghost use Rattle.std.specs.Prelude.{◌<◌};
ghost use Rattle.text_names.specs.Joint.{joint};
ghost use Rattle.evaluate_module.specs.Sofar.{Ready};
ghost use Rattle.evaluate_module.specs.Stepping.{Stepping};
ghost use Rattle.modules.specs.Modules.{heads_in};

use super::steps::{finished, joined, started};
use evaluate_states::{State, kept};
use form::Refusal;
use modules::Heads;

// The four steps for module k: what is kept then, its normal form too.
pub fn evaluate(
    library: &[u8],
    text: &[u8],
    work: &mut [u32],
    t: usize,
    h: &Heads,
    k: u32,
    s: State,
) -> Result<State, Refusal>
    requires k_bound { k < (heads_in h.now).count }
    requires ready { Ready t work.old (heads_in h.now) k s }
    ensures { Stepping (joint library.now text.now) t work.old (heads_in h.now) k s result work.new }
{
    let totals = s.totals;
    let so_far = started(library, text, work, t, h, k);
    let rows = joined(library, text, work, t, h, k, so_far);
    let f = finished(library, text, work, t, h, k, so_far, rows, totals)?;
    Ok(kept(library, text, work, t, k, f, s))
}
