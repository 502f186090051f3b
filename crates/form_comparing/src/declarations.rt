// Which declarations are one, and which origins. Names are compared first: they decide most.
ghost use Rattle.std.specs.Prelude.{◌≡◌, ◌&&◌, ◌+◌};
ghost use Rattle.meaning.specs.Lists.{agree};
ghost use Rattle.meaning.specs.Names.{same};
ghost use Rattle.meaning.specs.Origins.{same_declared, same_origin};
ghost use Rattle.text_names.specs.Joint.{joint};
ghost use Rattle.form_rows.specs.Entries.{name_at, sort_place, names_from, declared_at};
ghost use Rattle.form_rows.specs.Rows.{origin_of};

use form_rows::entries::{kind_at, same_name_at, same_word, sort_place};
use form_rows::sections::same_section;
use form_rows::{Origin, kinds};

// Are the c names that follow d those that follow e?
pub fn same_names(library: &[u8], text: &[u8], tape: &[u32], d: u32, e: u32, c: u32) -> bool
    ensures { result ≡ agree same (names_from (joint library.now text.now) tape.now (d + 1) c) (names_from (joint library.now text.now) tape.now (e + 1) c) }
{
    let i = d as usize + 1;
    let j = e as usize + 1;
    for k in 0..c as usize {
        if !same_name_at(library, text, tape, i + k, j + k) {
            return false;
        }
    }
    true
}

// Have the variables declared at d and e the same sort?
fn same_sorts_at(library: &[u8], text: &[u8], tape: &[u32], d: u32, e: u32) -> bool
    ensures { result ≡ same (name_at (joint library.now text.now) tape.now (sort_place tape.now d)) (name_at (joint library.now text.now) tape.now (sort_place tape.now e)) }
{
    same_name_at(
        library,
        text,
        tape,
        sort_place(tape, d),
        sort_place(tape, e),
    )
}

// Do the declarations at d and e say the same but for the name?
fn same_but_name(library: &[u8], text: &[u8], tape: &[u32], d: u32, e: u32) -> bool
    ensures { (same (name_at (joint library.now text.now) tape.now d) (name_at (joint library.now text.now) tape.now e) && result) ≡ same_declared (declared_at (joint library.now text.now) tape.now d) (declared_at (joint library.now text.now) tape.now e) }
{
    let k = kind_at(tape, d);
    let l = kind_at(tape, e);
    if k != l {
        return false;
    }
    if kinds::VARIABLE < k {
        return same_names(library, text, tape, d, e, k - 1);
    }
    if k == kinds::VARIABLE {
        return same_sorts_at(library, text, tape, d, e);
    }
    true
}

// Are the declarations at d and e one?
pub fn same_declared(library: &[u8], text: &[u8], tape: &[u32], d: u32, e: u32) -> bool
    ensures { result ≡ same_declared (declared_at (joint library.now text.now) tape.now d) (declared_at (joint library.now text.now) tape.now e) }
{
    if d == e {
        return true;
    }
    same_name_at(library, text, tape, d as usize, e as usize)
        && same_but_name(library, text, tape, d, e)
}

// Are a and b one origin?
pub fn same_origin(library: &[u8], text: &[u8], tape: &[u32], a: Origin, b: Origin) -> bool
    ensures { result ≡ same_origin (origin_of (joint library.now text.now) tape.now a) (origin_of (joint library.now text.now) tape.now b) }
{
    if !same_declared(library, text, tape, a.place, b.place) {
        return false;
    }
    same_word(library, text, a.home, b.home) && same_section(library, text, a.section, b.section)
}
