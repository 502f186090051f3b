// The modules that the asked one reaches, in text order, each once, up to the first refused.
#![tactic(auto)]

ghost use Rattle.std.specs.Prelude.{◌<◌, ◌≤◌};
ghost use Rattle.text_names.specs.Joint.{joint};
ghost use Rattle.evaluate_turns.specs.Asked.{Asked};
ghost use Rattle.modules.specs.Modules.{heads_in};
ghost use Rattle.evaluate_turns.specs.Turns.{Resumed, Given, Turned, AskedTurned, AllTurned};

use evaluate_module::evaluate::evaluate;
use evaluate_module::steps::{finished, joined, started};
use evaluate_states::{State, first_state, kept};
use form::Refusal;
use form_keeping::clear_forms;
use form_layout::{kept_start, table_start};
use modules::{Heads, module_count, name_of_module, reached};

// What a call leaves: the normal form of each of the `count` modules that were evaluated is kept, that of the latest for number `last`.
#[derive(Clone, Copy)]
pub struct Normalised {
    pub count: u32,
    pub last: u32,
}

// How a call is refused: with the refusal and the word of the module evaluated then. `count` modules were evaluated, the refused one included.
#[derive(Clone, Copy)]
pub struct RefusedAt {
    pub refusal: Refusal,
    pub count: u32,
    pub name: u32,
}

// Module k, the asked one, after the `count` others that it reaches. It is the second to go through the steps, which therefore are compiled as
// functions of their own: none has another's frame.
fn evaluate_asked(
    library: &[u8],
    text: &[u8],
    work: &mut [u32],
    t: usize,
    h: &Heads,
    k: u32,
    count: u32,
    s: State,
) -> Result<Normalised, RefusedAt>
    requires resumed { Resumed (joint library.now text.now) t work.old (heads_in h.now) k s }
    requires k_bound { k < (heads_in h.now).count }
    requires count_le_k { count ≤ k }
    ensures { AskedTurned (joint library.now text.now) t work.old (heads_in h.now) k count s result work.new }
{
    let name = name_of_module(&work[0..t], h, k);
    let count = count + 1;
    let totals = s.totals;
    let so_far = started(library, text, work, t, h, k);
    let rows = joined(library, text, work, t, h, k, so_far);
    match finished(library, text, work, t, h, k, so_far, rows, totals) {
        Err(refusal) => Err(RefusedAt {
            refusal,
            count,
            name,
        }),
        Ok(f) => {
            kept(library, text, work, t, k, f, s);
            Ok(Normalised { count, last: k })
        }
    }
}

// The modules of the set in turn, where nothing is evaluated yet: module k is the latest of them.
fn evaluate_set(
    library: &[u8],
    text: &[u8],
    work: &mut [u32],
    t: usize,
    h: &Heads,
    set: u64,
    k: u32,
    first: State,
) -> Result<Normalised, RefusedAt>
    requires resumed { Resumed (joint library.now text.now) t work.old (heads_in h.now) 0 first }
    requires asked { Asked (heads_in h.now) set k }
    ensures { Turned (joint library.now text.now) t work.old (heads_in h.now) set 0 0 first result work.new }
{
    let mut count: u32 = 0;
    let mut s = first;
    for i in 0..k {
        if module_set::has(set, i) {
            let name = name_of_module(&work[0..t], h, i);
            match evaluate(library, text, work, t, h, i, s) {
                Err(refusal) => {
                    return Err(RefusedAt {
                        refusal,
                        count: count + 1,
                        name,
                    });
                }
                Ok(r) => {
                    count += 1;
                    s = r;
                }
            }
        }
    }
    evaluate_asked(library, text, work, t, h, k, count, s)
}

// Module k and the modules that it reaches.
pub fn evaluate_reached(
    library: &[u8],
    text: &[u8],
    work: &mut [u32],
    t: usize,
    h: &Heads,
    k: u32,
) -> Result<Normalised, RefusedAt>
    requires { Given (joint library.now text.now) t work.old (heads_in h.now) }
    ensures { AllTurned (joint library.now text.now) t work.old (heads_in h.now) k result work.new }
{
    let set = reached(library, text, &work[0..t], h, k);
    let table = table_start();
    let kept = kept_start();
    clear_forms(work, table, 65, kept);
    if k < module_count(h) {
        let s = first_state();
        return evaluate_set(library, text, work, t, h, set, k, s);
    }
    // the row behind those of all modules has nothing
    Ok(Normalised { count: 0, last: 64 })
}
