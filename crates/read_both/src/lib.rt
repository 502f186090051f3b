// Two texts on one tape: what the library says, its places moved by the length of the customer's text, and behind it what that text says.
#![tactic(auto)]

ghost use Rattle.std.specs.Prelude.{◌≡◌, ◌≤◌, length};
ghost use Rattle.modules.specs.Modules.{heads_in};
ghost use Rattle.read_both.specs.Both.{moved, WordsOf, Stands, Told};

use module_heads::find_heads;
use modules::{HEADS, Heads, module_count, name_of_module};

// A refusal, in the library or in the customer's text.
#[derive(Clone, Copy)]
pub struct NotRead {
    pub in_library: bool,
    pub number: u8,
    pub place: usize,
}

// What was read: so many entries; or the first refusal.
pub type Both = Result<usize, NotRead>;

// The words of the names of the modules at these heads, in place of where they begin.
fn head_words(tape: &[u32], h: &mut Heads)
    requires h_bound { (heads_in h.old).count ≤ 64 }
    requires h_len { length (heads_in h.old).places ≡ 65 }
    ensures { WordsOf tape.now (heads_in h.old).places (heads_in h.old).count h.new }
{
    let count = module_count(h);
    for k in 0..count {
        let word = name_of_module(tape, h, k);
        h[k as usize] = word;
    }
}

// The first n entries, moved by so much.
fn move_entries(tape: &mut [u32], n: usize, by: u32)
    requires { n ≤ length tape.old }
    ensures { tape.new ≡ moved by n tape.old }
{
    for entry in &mut tape[0..n] {
        *entry = std::num::wrapping_add_u32(*entry, by);
    }
}

// What the customer's text says, behind n entries of the library.
fn read_customer(library: &[u8], text: &[u8], tape: &mut [u32], n: usize) -> Both
    requires { Stands library.now text.now n tape.old }
    ensures { Told library.now text.now tape.new result }
{
    let mut h = [0; HEADS];
    find_heads(tape, n as u32, &mut h);
    let count = module_count(&h) as usize;
    head_words(tape, &mut h);
    let end = tape.len();
    match read::read(text, library, &h[0..count], 64 - count, &mut tape[n..end]) {
        Err(e) => Err(NotRead {
            in_library: false,
            number: e.number,
            place: e.place,
        }),
        Ok(p) => {
            let m = p.entries;
            move_entries(tape, n, text.len() as u32 * 8192);
            Ok(n + m)
        }
    }
}

// What both texts say, on a tape with room for the longest two; or the first offence, of the library if it has one. An empty library is none.
pub fn read_both(library: &[u8], text: &[u8], tape: &mut [u32]) -> Both
    requires { 65536 ≤ length tape.old }
    ensures { Told library.now text.now tape.new result }
{
    if library.len() == 0 {
        return read_customer(library, text, tape, 0);
    }
    let none = [0; 1];
    match read::read(library, &library[0..0], &none[0..0], 64, tape) {
        Err(e) => Err(NotRead {
            in_library: true,
            number: e.number,
            place: e.place,
        }),
        Ok(p) => {
            let n = p.entries;
            read_customer(library, text, tape, n)
        }
    }
}
