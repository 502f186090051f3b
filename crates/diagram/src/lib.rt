// The structure diagram of one module of two texts: from bytes to the answer and the lines. All working memory is lent, and zero afterwards.
#![tactic(auto)]

ghost use Rattle.std.specs.Prelude.{◌≡◌, ◌≤◌, length};
ghost use Rattle.meaning.specs.Numbers.{memory_size};
ghost use Rattle.meaning.specs.Texts.{two_texts, read_texts};
ghost use Rattle.answer.specs.Answers.{returned, told_call};
ghost use Rattle.modules.specs.Modules.{heads_in};
ghost use Rattle.diagram_meaning.specs.Answer.{diagram_call};
ghost use Rattle.diagram_lent.specs.Drawn.{Drawn, Ready, Asked};

use answer::{Answer, absent, lent_short, listed, unread};
use diagram_answer::over_lines;
use diagram_lines::LINES;
use diagram_walk::walk;
use form_layout::tape_end;
use memory::memory_size;
use module_heads::find_heads;
use modules::{HEADS, Heads, find_asked, module_count};
use read_both::read_both;

// The diagram of module k: counted first, then written if it has at most 1,024 lines and all of them have room.
fn diagram_of(
    asked: &[u8],
    library: &[u8],
    text: &[u8],
    work: &mut [u32],
    t: usize,
    h: &Heads,
    base: usize,
    k: u32,
    out: &mut [u8],
) -> Answer
    requires base_bound { base ≤ 65536 }
    requires asked { Asked asked.now library.now text.now (heads_in h.now) t base work.old k }
    ensures { Drawn asked.now (read_texts (two_texts library.now text.now)) out.old result out.new }
{
    let room = out.len();
    let c = walk(&mut out[0..0], room + 1, library, text, work, t, h, base, k);
    let lines = c.lines;
    let size = c.at;
    if LINES <= lines {
        return over_lines(asked);
    }
    if room < size {
        return lent_short(asked, 0);
    }
    let s = walk(out, room + 1, library, text, work, t, h, base, k);
    listed(0, s.at)
}

// The diagram of the asked module on a tape of t entries.
fn diagram_read(
    asked: &[u8],
    library: &[u8],
    text: &[u8],
    work: &mut [u32],
    t: usize,
    out: &mut [u8],
) -> Answer
    requires { Ready library.now text.now t work.old }
    ensures { Drawn asked.now (read_texts (two_texts library.now text.now)) out.old result out.new }
{
    let mut h = [0; HEADS];
    find_heads(&work[0..t], t as u32, &mut h);
    let k = find_asked(library, text, &work[0..t], &h, asked);
    let count = module_count(&h);
    if count <= k {
        return absent(asked);
    }
    let base = tape_end() as usize;
    diagram_of(asked, library, text, work, t, &h, base, k, out)
}

// The diagram where there is enough working memory.
fn diagram_texts(
    asked: &[u8],
    library: &[u8],
    text: &[u8],
    work: &mut [u32],
    out: &mut [u8],
) -> Answer
    requires { memory_size ≤ length work.old }
    ensures { Drawn asked.now (read_texts (two_texts library.now text.now)) out.old result out.new }
{
    let end = tape_end() as usize;
    match read_both(library, text, &mut work[0..end]) {
        Err(e) => unread(e.in_library, e.number, e.place),
        Ok(t) => diagram_read(asked, library, text, work, t, out),
    }
}

// The structure diagram of the asked module, at the front of `out`; or the refusal, which leaves `out` as it was. Nothing is evaluated.
pub fn diagram(
    asked: &[u8],
    library: &[u8],
    text: &[u8],
    work: &mut [u32],
    out: &mut [u8],
) -> Answer
    ensures { returned result out.new work.new ≡ told_call
        (diagram_call work.old out.old asked.now (two_texts library.now text.now)) }
{
    let size = memory_size();
    if work.len() < size {
        memory::zero_all(work);
        return lent_short(asked, 0);
    }
    let r = diagram_texts(asked, library, text, work, out);
    memory::zero_all(work);
    r
}
