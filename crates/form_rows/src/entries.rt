// Words of a memory, and what the tape says at a place: roles, names, and where a declaration is from.
ghost use Rattle.std.specs.Prelude.{◌≡◌, [], ◌∷◌, ◌-◌, ◌^◌, ◌<◌, get_or, set};
ghost use Rattle.std.proofs.lemmas.List.Edits.{sets};
ghost use Rattle.meaning.specs.Names.{same};
ghost use Rattle.text_names.specs.Word.{name_of};
ghost use Rattle.text_names.specs.Joint.{joint};
ghost use Rattle.form_rows.specs.Entries.{role_at, word_at, name_at, last_with, next_with, inputs_from, is_function_role, is_parameter_role, is_export_role, arity_at, sort_place, home_at, section_at, origin_at};
ghost use Rattle.form_rows.specs.Kinds.{kind_at};

use super::{Origin, kinds};
use form_sections::Section;
use meaning::numbers;
use tape::roles;
use text_names::joint::same_name;

// The word at i; 0 past the end.
pub fn word_at(t: &[u32], i: usize) -> u32
    ensures { result ≡ get_or t.now i 0 }
{
    if i < t.len() { t[i] } else { 0 }
}

// v at i; past the end nothing is stored.
pub fn put_word(t: &mut [u32], i: usize, v: u32)
    ensures { t.new ≡ set t.old i v }
{
    if i < t.len() {
        t[i] = v;
    }
}

// x, y and z stored from b on.
pub fn put_three(t: &mut [u32], b: usize, x: u32, y: u32, z: u32)
    requires { b < 2 ^ 40 }
    ensures { t.new ≡ sets t.old b (x ∷ y ∷ z ∷ []) }
{
    put_word(t, b, x);
    put_word(t, b + 1, y);
    put_word(t, b + 2, z);
}

// Are a and b the same name? One word is one name, with no look at the text.
pub fn same_word(library: &[u8], text: &[u8], a: u32, b: u32) -> bool
    ensures { result ≡ same (name_of (joint library.now text.now) a) (name_of (joint library.now text.now) b) }
{
    a == b || same_name(library, text, a, b)
}

// What stands at i.
pub fn role_at(tape: &[u32], i: usize) -> u32
    ensures { result ≡ role_at tape.now i }
{
    word_at(tape, i) % 32
}

// The word of the name at i.
pub fn name_at(tape: &[u32], i: usize) -> u32
    ensures { result ≡ word_at tape.now i }
{
    word_at(tape, i) / 32
}

// Is the name at i the name at j?
pub fn same_name_at(library: &[u8], text: &[u8], tape: &[u32], i: usize, j: usize) -> bool
    ensures { result ≡ same (name_at (joint library.now text.now) tape.now i) (name_at (joint library.now text.now) tape.now j) }
{
    same_word(library, text, name_at(tape, i), name_at(tape, j))
}

// The last place up to i that has the role; 0 if none has.
pub fn last_with(tape: &[u32], role: u32, i: usize) -> usize
    ensures { result ≡ last_with role tape.now i }
{
    for j in (0..i).rev() {
        if role_at(tape, j + 1) == role {
            return j + 1;
        }
    }
    0
}

// The first place from i up to `end` that has the role; the place where it ends if none has.
pub fn next_with(tape: &[u32], role: u32, i: usize, end: usize) -> usize
    ensures { result ≡ next_with role tape.now i (end - i) }
{
    for j in i..end {
        if role_at(tape, j) == role {
            return j;
        }
    }
    i.max(end)
}

// How many inputs stand from i on, before `end`.
pub fn inputs_from(tape: &[u32], i: usize, end: usize) -> usize
    ensures { result ≡ inputs_from tape.now i (end - i) }
{
    for j in i..end {
        if role_at(tape, j) != roles::INPUT {
            return j - i;
        }
    }
    end.saturating_sub(i)
}

pub fn is_function_role(role: u32) -> bool
    ensures { result ≡ is_function_role role }
{
    role == roles::PARAMETER_FUNCTION
        || role == roles::EXPORT_FUNCTION
        || role == roles::HIDDEN_FUNCTION
}

pub fn is_parameter_role(role: u32) -> bool
    ensures { result ≡ is_parameter_role role }
{
    role == roles::PARAMETER_SORT || role == roles::PARAMETER_FUNCTION
}

pub fn is_export_role(role: u32) -> bool
    ensures { result ≡ is_export_role role }
{
    role == roles::EXPORT_SORT || role == roles::EXPORT_FUNCTION
}

// How many inputs the function declared at d has.
pub fn arity_at(tape: &[u32], d: u32) -> u32
    ensures { result ≡ arity_at tape.now d }
{
    let i = d as usize + 1;
    inputs_from(tape, i, i + numbers::ARGUMENT_LIMIT) as u32
}

// What is declared at d, as a row's kind.
pub fn kind_at(tape: &[u32], d: u32) -> u32
    ensures { result ≡ kind_at tape.now d }
{
    let role = role_at(tape, d as usize);
    if is_function_role(role) {
        return arity_at(tape, d) + kinds::FUNCTION;
    }
    if role == roles::VARIABLE {
        return kinds::VARIABLE;
    }
    kinds::SORT
}

// Where the sort of the variable declared at d stands.
pub fn sort_place(tape: &[u32], d: u32) -> usize
    ensures { result ≡ sort_place tape.now d }
{
    next_with(tape, roles::VARIABLE_SORT, d as usize, tape.len())
}

// The name's word of the module that d stands in.
pub fn home_at(tape: &[u32], d: u32) -> u32
    ensures { result ≡ home_at tape.now d }
{
    name_at(tape, last_with(tape, roles::MODULE, d as usize))
}

// The section that d stands in.
pub fn section_at(tape: &[u32], d: u32) -> Section
    ensures { result ≡ section_at tape.now d }
{
    let role = role_at(tape, d as usize);
    if is_parameter_role(role) {
        return Section::Parameter(name_at(tape, last_with(tape, roles::PARAMETER, d as usize)));
    }
    if is_export_role(role) {
        return Section::Export;
    }
    Section::Hidden
}

// Where what is declared at d is from.
pub fn origin_at(tape: &[u32], d: u32) -> Origin
    ensures { result ≡ origin_at tape.now d }
{
    let home = home_at(tape, d);
    let section = section_at(tape, d);
    Origin {
        home,
        section,
        place: d,
    }
}
