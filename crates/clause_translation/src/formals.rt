// Which items of a table stand in the parameter that is bound: the formal ones.
ghost use Rattle.std.specs.Prelude.{◌≡◌, List, ℕ, ◌+◌, ◌*◌, ◌≤◌, length};
ghost use Rattle.meaning.specs.Origins.{in_parameter};
ghost use Rattle.meaning.specs.Clauses.{is_formal_sort};
ghost use Rattle.text_names.specs.Word.{name_of};
ghost use Rattle.text_names.specs.Joint.{joint};
ghost use Rattle.form_rows.specs.Rows.{section_of, item_of, shape_of, row_at, row_size};
ghost use Rattle.form.specs.Memory.{part};
ghost use Rattle.clause_translation.specs.Translation.{mode_formals};
ghost use Rattle.clause_translation.specs.Moved.{formal_sort, formal_function, is_formal_function};

use super::Mode;
use form_comparing::sorts::same_shape;
use form_rows::entries::{same_word, word_at};
use form_rows::rows::read_row;
use form_rows::sections::same_section;
use form_rows::{ROW_STEP, Row, kinds};
use form_sections::{Section, word_section};

// Is s the parameter called p?
pub fn in_parameter(library: &[u8], text: &[u8], p: u32, s: Section) -> bool
    ensures { result ≡ in_parameter (name_of (joint library.now text.now) p) (section_of (joint library.now text.now) s) }
{
    same_section(library, text, Section::Parameter(p), s)
}

// Is row i of those from b on a sort called w that stands in the parameter p? Its words are read where they lie: none asks for the tape.
fn is_such_sort(library: &[u8], text: &[u8], work: &[u32], b: u32, i: u32, p: u32, w: u32) -> bool
    ensures { (tape : List ℕ) → result ≡ formal_sort (name_of (joint library.now text.now) p) (name_of (joint library.now text.now) w) (item_of (joint library.now text.now) tape (row_at work.now (b + i * row_size))) }
{
    let place = b as usize + i as usize * ROW_STEP;
    if word_at(work, place + 2) == kinds::SORT {
        let standing = word_section(word_at(work, place));
        if in_parameter(library, text, p, standing) {
            return same_word(library, text, w, word_at(work, place + 1));
        }
    }
    false
}

// Is there a formal sort called w?
pub fn is_formal_sort(library: &[u8], text: &[u8], work: &[u32], t: usize, m: Mode, w: u32) -> bool
    requires { t ≤ length work.now }
    ensures { result ≡ is_formal_sort (mode_formals (joint library.now text.now) (part work.now 0 t) work.now m) (name_of (joint library.now text.now) w) }
{
    let visible = m.visible;
    let count = m.count;
    let p = m.parameter;
    for i in 0..count {
        if is_such_sort(library, text, work, visible, i, p, w) {
            return true;
        }
    }
    false
}

// Stands row i of the mode's table in its parameter, with the row's name and shape?
fn is_such_function(
    library: &[u8],
    text: &[u8],
    work: &[u32],
    t: usize,
    m: Mode,
    i: u32,
    row: Row,
) -> bool
    requires { t ≤ length work.now }
    ensures { result ≡ formal_function (name_of (joint library.now text.now) m.parameter) (name_of (joint library.now text.now) row.name) (shape_of (joint library.now text.now) (part work.now 0 t) row.kind row.sorts) (item_of (joint library.now text.now) (part work.now 0 t) (row_at work.now (m.visible + i * row_size))) }
{
    let visible = m.visible;
    let p = m.parameter;
    let other = read_row(work, visible, i);
    let standing = other.standing;
    if in_parameter(library, text, p, standing) {
        let f = row.name;
        let g = other.name;
        if same_word(library, text, f, g) {
            return same_shape(library, text, &work[0..t], row, other);
        }
    }
    false
}

// Is there a formal item of the row's name and shape?
pub fn is_formal_function(
    library: &[u8],
    text: &[u8],
    work: &[u32],
    t: usize,
    m: Mode,
    row: Row,
) -> bool
    requires { t ≤ length work.now }
    ensures { result ≡ is_formal_function (mode_formals (joint library.now text.now) (part work.now 0 t) work.now m) (name_of (joint library.now text.now) row.name) (shape_of (joint library.now text.now) (part work.now 0 t) row.kind row.sorts) }
{
    let count = m.count;
    for i in 0..count {
        if is_such_function(library, text, work, t, m, i, row) {
            return true;
        }
    }
    false
}
