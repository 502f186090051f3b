// A module's equations typed into a form that has its visible items and its own hidden ones (17).
#![tactic(auto)]

ghost use Rattle.std.specs.Prelude.{◌≡◌, ◌+◌, ◌≤◌, length};
ghost use Rattle.text_names.specs.Joint.{joint};
ghost use Rattle.own_typing.specs.Equations.{told, equations_from};
ghost use Rattle.own_typing.specs.Typed.{known_in, module_in, own_made};
ghost use Rattle.own_equations.specs.Own.{owned, own_at};

use form::{Culprit, Form, Refusal};
use form_rows::entries::next_with;
use meaning::numbers;
use own_finding::Known;
use own_typing::equations::{span, type_equations};
use own_typing::{Equated, Module};
use tape::roles;

// The equations from i on, their rows and nodes where the form has them.
fn type_placed(
    library: &[u8],
    text: &[u8],
    work: &mut [u32],
    t: usize,
    f: Form,
    home: u32,
    i: usize,
    end: usize,
) -> Result<Equated, u32>
    requires { (t ≤ length work.old) × (t ≤ 65536) × (end ≤ t) × (f.visible_count + f.hidden_count ≤ 65536) }
    ensures { told result work.new ≡ equations_from (joint library.now text.now) (known_in t f) (module_in f home end) t 0 i f.nodes work.old }
{
    let visible = f.visible_count;
    let hidden = f.hidden_count;
    let base = f.visible;
    let rows = f.equations as usize;
    let nodes = f.nodes as usize;
    let k = Known {
        tape: t,
        base,
        count: visible + hidden,
        visible,
        hidden: 0,
    };
    let m = Module {
        home,
        end,
        rows,
        nodes,
    };
    type_equations(library, text, work, k, m, i, nodes)
}

// What is made of the form.
fn made_of(f: Form, r: Result<Equated, u32>) -> Result<Form, Refusal>
    ensures { result ≡ own_made f r }
{
    match r {
        Err(tag) => Err(Refusal {
            number: numbers::ILL_TYPED,
            culprit: Culprit {
                name: tag,
                actual: 0,
            },
        }),
        Ok(equated) => {
            let nodes = f.nodes as usize;
            let node_count = span(equated.free, nodes);
            Ok(Form {
                parameters: f.parameters,
                parameter_count: f.parameter_count,
                visible: f.visible,
                visible_count: f.visible_count,
                hidden: f.hidden,
                hidden_count: f.hidden_count,
                equations: f.equations,
                equation_count: equated.count,
                nodes: f.nodes,
                node_count,
            })
        }
    }
}

// The equations of module number `home`, whose entries stand from `from` up to `end`: the first tag tells where they begin.
pub fn type_own(
    library: &[u8],
    text: &[u8],
    work: &mut [u32],
    t: usize,
    f: Form,
    home: u32,
    from: usize,
    end: usize,
) -> Result<Form, Refusal>
    requires { (t ≤ length work.old) × (t ≤ 65536) × (end ≤ t) × (f.visible_count + f.hidden_count ≤ 65536) }
    ensures { owned result work.new ≡ own_at (joint library.now text.now) t f home from end work.old }
{
    let i = next_with(&work[0..t], roles::TAG, from, end);
    let r = type_placed(library, text, work, t, f, home, i, end);
    made_of(f, r)
}
