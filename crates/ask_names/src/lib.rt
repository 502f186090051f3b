// The name of module k of two texts. They are read into the lent working memory, onto a tape, and the name stands where the module begins on it.
#![tactic(auto)]

ghost use Rattle.std.specs.Prelude.{◌≡◌, ◌≤◌, length};
ghost use Rattle.meaning.specs.Numbers.{memory_size};
ghost use Rattle.meaning.specs.Texts.{two_texts, read_texts};
ghost use Rattle.text_names.specs.Joint.{joint};
ghost use Rattle.answer.specs.Answers.{held};
ghost use Rattle.ask_decision.specs.Decide.{module_called};
ghost use Rattle.ask_names.specs.Named.{Named};
ghost use Rattle.ask_names.specs.Steps.{Spoken};

use answer::{Name, blank, name_in};
use form_layout::tape_end;
use memory::memory_size;
use module_heads::find_heads;
use modules::{HEADS, module_count, name_of_module};
use read_both::read_both;

// The name of module k of a tape; blank where there is none.
fn name_read(library: &[u8], text: &[u8], tape: &[u32], k: u32) -> Name
    requires { Spoken (read_texts (two_texts library.now text.now)) (joint library.now text.now) tape.now }
    ensures { result ≡ held (module_called (two_texts library.now text.now) k) }
{
    let mut h = [0; HEADS];
    find_heads(tape, tape.len() as u32, &mut h);
    let count = module_count(&h);
    if count <= k {
        return blank();
    }
    name_in(library, text, name_of_module(tape, &h, k))
}

// The name of module k where there is enough working memory; blank where the texts are not read.
fn name_in_texts(library: &[u8], text: &[u8], work: &mut [u32], k: u32) -> Name
    requires { memory_size ≤ length work.old }
    ensures { result ≡ held (module_called (two_texts library.now text.now) k) }
{
    let end = tape_end() as usize;
    match read_both(library, text, &mut work[0..end]) {
        Err(_) => blank(),
        Ok(t) => name_read(library, text, &work[0..t], k),
    }
}

// The name of the module with the number that a decision has; blank where there is none, or too little working memory is lent.
pub fn module_name(library: &[u8], text: &[u8], work: &mut [u32], k: u32) -> Name
    ensures { Named result work.new work.old (two_texts library.now text.now) k }
{
    let size = memory_size();
    if work.len() < size {
        memory::zero_all(work);
        return blank();
    }
    let r = name_in_texts(library, text, work, k);
    memory::zero_all(work);
    r
}
