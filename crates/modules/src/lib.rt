// The modules of a tape by their heads: where each is declared, its number by its name, and which modules it reaches.
// A module's number is its place among the modules of the text, from 0.
#![tactic(auto)]

ghost use Rattle.std.specs.Prelude.{◌≡◌, [], ◌∷◌, get_or};
ghost use Rattle.meaning.specs.Lists.{before};
ghost use Rattle.meaning.specs.Names.{Name, same};
ghost use Rattle.text_names.specs.Word.{name_of};
ghost use Rattle.text_names.specs.Joint.{joint};
ghost use Rattle.form_rows.specs.Entries.{word_at};
ghost use Rattle.module_set.specs.ModuleSet.{holds};
ghost use Rattle.modules.specs.Modules.{names_module, declared, with_named, named_set, turned, gathered, reached_set, heads_in};

use form_rows::entries::{name_at, role_at};
use tape::roles;

// The places on the tape where the modules begin, in text order, and behind them where the last one ends; the last word is how many modules there are.
// They are lent, so that no call has a copy on the stack.
pub const HEADS: usize = 66;

pub type Heads = [u32; HEADS];

// Where that number stands.
pub const COUNT: usize = 65;

// Is the name at an entry with the role that of a module which an import or a binding uses?
pub fn names_module(role: u32) -> bool
    ensures { result ≡ names_module role }
{
    role == roles::IMPORT || role == roles::ACTUAL
}

// Where module k begins; 0 past the last place.
pub fn place_at(h: &Heads, k: usize) -> u32
    ensures { result ≡ get_or (heads_in h.now).places k 0 }
{
    if k < COUNT {
        return h[k];
    }
    0
}

// How many modules there are.
pub fn module_count(h: &Heads) -> u32
    ensures { result ≡ (heads_in h.now).count }
{
    h[COUNT]
}

// The word of the name of module k.
pub fn name_of_module(tape: &[u32], h: &Heads, k: u32) -> u32
    ensures { result ≡ word_at tape.now (get_or (heads_in h.now).places k 0) }
{
    name_at(tape, place_at(h, k as usize) as usize)
}

// The number of the module called w; the number of modules if there is none.
pub fn find_number(library: &[u8], text: &[u8], tape: &[u32], h: &Heads, w: u32) -> u32
    ensures { result ≡ before (same (name_of (joint library.now text.now) w)) (declared (joint library.now text.now) tape.now (heads_in h.now)) }
{
    let count = module_count(h);
    for k in 0..count {
        if text_names::joint::same_name(library, text, w, name_of_module(tape, h, k)) {
            return k;
        }
    }
    count
}

// The number of the module with the asked name; the number of modules if there is none.
pub fn find_asked(library: &[u8], text: &[u8], tape: &[u32], h: &Heads, asked: &[u8]) -> u32
    ensures { result ≡ before (λ (w : Name). same w asked.now) (declared (joint library.now text.now) tape.now (heads_in h.now)) }
{
    let count = module_count(h);
    for k in 0..count {
        if text_names::joint::is_called(library, text, name_of_module(tape, h, k), asked) {
            return k;
        }
    }
    count
}

// The set with the module called w, if it stands before module k.
fn with_name(library: &[u8], text: &[u8], tape: &[u32], h: &Heads, k: u32, set: u64, w: u32) -> u64
    ensures { holds result ≡ with_named (declared (joint library.now text.now) tape.now (heads_in h.now)) k (holds set) (name_of (joint library.now text.now) w ∷ []) }
{
    let p = find_number(library, text, tape, h, w);
    if p < k {
        return module_set::with(set, p);
    }
    set
}

// The modules before module k that it names.
pub fn named_set(library: &[u8], text: &[u8], tape: &[u32], h: &Heads, k: u32) -> u64
    ensures { holds result ≡ named_set (joint library.now text.now) tape.now (heads_in h.now) k }
{
    let start = place_at(h, k as usize);
    let end = place_at(h, k as usize + 1);
    let mut set = module_set::empty();
    for j in start..end {
        if names_module(role_at(tape, j as usize)) {
            set = with_name(library, text, tape, h, k, set, name_at(tape, j as usize));
        }
    }
    set
}

// The set, with the modules that module k names where module k is in it.
fn turned(library: &[u8], text: &[u8], tape: &[u32], h: &Heads, k: u32, set: u64) -> u64
    ensures { holds result ≡ turned (named_set (joint library.now text.now) tape.now (heads_in h.now)) (holds set) k }
{
    if module_set::has(set, k) {
        return module_set::joined(set, named_set(library, text, tape, h, k));
    }
    set
}

// The set, and the modules that those of its modules reach which are below n: the latest first.
fn gathered(library: &[u8], text: &[u8], tape: &[u32], h: &Heads, n: u32, set: u64) -> u64
    ensures { holds result ≡ gathered (named_set (joint library.now text.now) tape.now (heads_in h.now)) (holds set) 0 n }
{
    let mut all = set;
    for k in (0..n).rev() {
        all = turned(library, text, tape, h, k, all);
    }
    all
}

// Module k, and the modules that it reaches.
pub fn reached(library: &[u8], text: &[u8], tape: &[u32], h: &Heads, k: u32) -> u64
    ensures { holds result ≡ reached_set (joint library.now text.now) tape.now (heads_in h.now) k }
{
    let count = module_count(h);
    gathered(
        library,
        text,
        tape,
        h,
        count,
        module_set::with(module_set::empty(), k),
    )
}
