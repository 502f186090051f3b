// What is kept so far: where the next normal form goes, and the sizes of all together.
#![tactic(auto)]

ghost use Rattle.std.specs.Prelude.{◌≡◌, length, Ok};
ghost use Rattle.text_names.specs.Joint.{joint};
ghost use Rattle.own_completing.specs.Room.{StillRight};
ghost use Rattle.evaluate_states.specs.States.{first_state, with_form, KeptRoom, KeptState};

use evaluate_storing::store;
use form::Form;
use form_layout::kept_start;
use own_completing::Totals;

#[derive(Clone, Copy)]
pub struct State {
    pub cursor: u32,
    pub totals: Totals,
}

// The sizes with those of f.
fn with_form(totals: Totals, f: Form) -> Totals
    requires { StillRight totals (Ok f) }
    ensures { result ≡ with_form totals f }
{
    let items = f.visible_count + f.hidden_count;
    Totals {
        items: totals.items + items,
        equations: totals.equations + f.equation_count,
        nodes: totals.nodes + f.node_count,
    }
}

// The normal form f of module k, put in order and kept.
pub fn kept(
    library: &[u8],
    text: &[u8],
    work: &mut [u32],
    t: usize,
    k: u32,
    f: Form,
    s: State,
) -> State
    requires { KeptRoom (length work.old) t k f s }
    ensures { KeptState (joint library.now text.now) t k f s result work.old work.new }
{
    let totals = s.totals;
    let c = s.cursor;
    let sums = with_form(totals, f);
    let cursor = store(library, text, work, t, k, f, c);
    State {
        cursor,
        totals: sums,
    }
}

// Nothing is kept.
pub fn first_state() -> State
    ensures { result ≡ first_state }
{
    let cursor = kept_start();
    State {
        cursor,
        totals: Totals {
            items: 0,
            equations: 0,
            nodes: 0,
        },
    }
}
