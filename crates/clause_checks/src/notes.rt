// Where the formal items of a binding are found once they are bound: among the visible items of the form that is made.
ghost use Rattle.std.specs.Prelude.{◌≡◌, ◌≤◌, length};
ghost use Rattle.text_names.specs.Joint.{joint};
ghost use Rattle.form_rows.specs.Rows.{item_of};
ghost use Rattle.form.specs.Memory.{part};
ghost use Rattle.clause_checks.specs.Notes.{moved_place, note_stored, NoteRoom, FormalsNoted};

use super::searches::find_like;
use clause_translation::Mode;
use clause_translation::formals::in_parameter;
use clause_translation::rows::moved_row;
use form::Form;
use form_rows::Row;
use form_rows::entries::put_word;
use form_rows::rows::read_row;

// The first visible row of y that has the row's moved name and shape; the number of rows if there is none.
fn find_moved(
    library: &[u8],
    text: &[u8],
    work: &[u32],
    t: usize,
    m: Mode,
    y: Form,
    row: Row,
) -> u32
    requires { t ≤ length work.now }
    ensures { result ≡ moved_place (joint library.now text.now) (part work.now 0 t) work.now m y (item_of (joint library.now text.now) (part work.now 0 t) row) }
{
    let b = y.visible;
    let n = y.visible_count;
    let moved = moved_row(library, text, work, t, m, true, row);
    let name = moved.name;
    find_like(library, text, work, t, b, n, name, moved)
}

// Where row k of the mode's table is found in y is noted, if it is formal.
fn note_formal(
    library: &[u8],
    text: &[u8],
    work: &mut [u32],
    t: usize,
    m: Mode,
    y: Form,
    notes: u32,
    k: u32,
)
    requires { t ≤ length work.old }
    ensures { work.new ≡ note_stored (joint library.now text.now) (part work.old 0 t) work.old m y notes k }
{
    let b = m.visible;
    let p = m.parameter;
    let row = read_row(work, b, k);
    let standing = row.standing;
    if in_parameter(library, text, p, standing) {
        let at = find_moved(library, text, work, t, m, y, row);
        put_word(work, notes as usize + k as usize, at);
        return;
    }
}

// Where each formal row of the mode's table is found in y.
pub fn note_formals(
    library: &[u8],
    text: &[u8],
    work: &mut [u32],
    t: usize,
    m: Mode,
    y: Form,
    notes: u32,
)
    requires { NoteRoom (length work.old) t m y notes }
    ensures { FormalsNoted (joint library.now text.now) (part work.old 0 t) work.old work.new m y notes }
{
    let count = m.count;
    for k in 0..count {
        note_formal(library, text, work, t, m, y, notes, k);
    }
}
