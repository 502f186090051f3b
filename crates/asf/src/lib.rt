// Normalising one module of two texts, our library and the customer's: from bytes to the answer and the listing. All working memory is lent, and zero afterwards.
#![tactic(auto)]

ghost use Rattle.std.specs.Prelude.{◌≡◌};
ghost use Rattle.meaning.specs.Texts.{two_texts, read_texts};
ghost use Rattle.meaning.specs.Answer.{memory_after};
ghost use Rattle.meaning.specs.Contract.{call};
ghost use Rattle.text_names.specs.Joint.{joint};
ghost use Rattle.evaluate_turns.specs.Turns.{Given};
ghost use Rattle.answer.specs.Answers.{returned, told_call};
ghost use Rattle.modules.specs.Modules.{heads_in};
ghost use Rattle.asf.specs.Steps.{Spoken, SoughtAs, ModuleSought};

use answer::{Answer, absent, lent_short, refused, unread};
use answer_listing::list_module;
use evaluate_turns::{RefusedAt, evaluate_reached};
use form_layout::tape_end;
pub use memory::memory_size;
use module_heads::find_heads;
use modules::{HEADS, Heads, find_asked, module_count, name_of_module};
use read_both::{NotRead, read_both};

// What is listed: the normal form kept for number `last`, on a tape of t entries, of the asked module, called `name`; `count` modules were
// normalised.
#[derive(Clone, Copy)]
struct Sought {
    t: usize,
    name: u32,
    count: u32,
    last: u32,
}

// Why nothing is listed: too little memory is lent; a text is not read; no module is called as asked; or a module is refused.
#[derive(Clone, Copy)]
enum Unlisted {
    Short,
    Unread(NotRead),
    Absent,
    Refused(RefusedAt),
}

// What comes of module k of a tape of t entries.
fn module_sought(
    library: &[u8],
    text: &[u8],
    work: &mut [u32],
    t: usize,
    h: &Heads,
    k: u32,
) -> Result<Sought, Unlisted>
    requires { Given (joint library.now text.now) t work.old (heads_in h.now) }
    ensures { ModuleSought (joint library.now text.now) t work.old (heads_in h.now) k work.new result }
{
    let name = name_of_module(&work[0..t], h, k);
    match evaluate_reached(library, text, work, t, h, k) {
        Err(e) => Err(Unlisted::Refused(e)),
        Ok(e) => Ok(Sought {
            t,
            name,
            count: e.count,
            last: e.last,
        }),
    }
}

// What comes of a tape of t entries.
fn asked_sought(
    asked: &[u8],
    library: &[u8],
    text: &[u8],
    work: &mut [u32],
    t: usize,
) -> Result<Sought, Unlisted>
    requires { Spoken (read_texts (two_texts library.now text.now)) (joint library.now text.now) t work.old }
    ensures { SoughtAs asked.now (read_texts (two_texts library.now text.now)) (joint library.now text.now) work.new result }
{
    let mut h = [0; HEADS];
    find_heads(&work[0..t], t as u32, &mut h);
    let k = find_asked(library, text, &work[0..t], &h, asked);
    let count = module_count(&h);
    if count <= k {
        return Err(Unlisted::Absent);
    }
    module_sought(library, text, work, t, &h, k)
}

// What comes of the two texts. No room for an answer lies under what is evaluated here.
fn text_sought(
    asked: &[u8],
    library: &[u8],
    text: &[u8],
    work: &mut [u32],
) -> Result<Sought, Unlisted>
    ensures { SoughtAs asked.now (read_texts (two_texts library.now text.now)) (joint library.now text.now) work.new result }
{
    let size = memory_size();
    if work.len() < size {
        return Err(Unlisted::Short);
    }
    let end = tape_end();
    match read_both(library, text, &mut work[0..end as usize]) {
        Err(e) => Err(Unlisted::Unread(e)),
        Ok(t) => asked_sought(asked, library, text, work, t),
    }
}

// The answer to what was sought, which the call gives once the memory is zero.
fn sought_answer(
    asked: &[u8],
    library: &[u8],
    text: &[u8],
    work: &[u32],
    what: Result<Sought, Unlisted>,
    out: &mut [u8],
) -> Answer
    requires { SoughtAs asked.now (read_texts (two_texts library.now text.now)) (joint library.now text.now) work.now what }
    ensures { returned result out.new (memory_after work.now) ≡ told_call (call work.now out.old asked.now (two_texts library.now text.now)) }
{
    match what {
        Err(Unlisted::Short) => lent_short(asked, 0),
        Err(Unlisted::Unread(e)) => unread(e.in_library, e.number, e.place),
        Err(Unlisted::Absent) => absent(asked),
        Err(Unlisted::Refused(e)) => {
            let refusal = e.refusal;
            refused(
                library,
                text,
                refusal.number,
                e.count,
                e.name,
                refusal.culprit,
            )
        }
        Ok(s) => list_module(
            asked, library, text, work, s.t, s.name, s.count, s.last, out,
        ),
    }
}

// The normal form of the asked module, as a listing at the front of `out`; or the refusal, which leaves `out` as it was. The library's modules
// stand before those of the text; an empty library is none.
pub fn normalise(
    asked: &[u8],
    library: &[u8],
    text: &[u8],
    work: &mut [u32],
    out: &mut [u8],
) -> Answer
    ensures { returned result out.new work.new ≡ told_call (call work.old out.old asked.now (two_texts library.now text.now)) }
{
    let what = text_sought(asked, library, text, work);
    let r = sought_answer(asked, library, text, work, what, out);
    memory::zero_all(work);
    r
}
