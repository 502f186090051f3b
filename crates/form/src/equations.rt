// Rows of equations, moved in and out by value.
ghost use Rattle.std.specs.Prelude.{◌≡◌, ◌+◌, ◌*◌};
ghost use Rattle.std.proofs.lemmas.List.Edits.{sets};
ghost use Rattle.form.specs.Forms.{equation_size, equation_row_at, equation_words};

use super::{EQUATION_STEP, EquationRow};
use form_rows::entries::{put_three, word_at};

// Row i of a table of equations that starts at `base`.
fn equation_place(base: u32, i: u32) -> usize
    ensures { result ≡ base + i * equation_size }
{
    base as usize + i as usize * EQUATION_STEP
}

// The equation at row i of the table that starts at `base`.
pub fn read_equation(w: &[u32], base: u32, i: u32) -> EquationRow
    ensures { result ≡ equation_row_at w.now (base + i * equation_size) }
{
    let b = equation_place(base, i);
    let home = word_at(w, b);
    let position = word_at(w, b + 1);
    let tag = word_at(w, b + 2);
    let conditions = word_at(w, b + 3);
    let start = word_at(w, b + 4);
    let count = word_at(w, b + 5);
    EquationRow {
        home,
        position,
        tag,
        conditions,
        start,
        count,
    }
}

// q stored at row i of the table that starts at `base`, its nodes from `start` on.
pub fn write_equation(w: &mut [u32], base: u32, i: u32, q: EquationRow, start: u32)
    ensures { w.new ≡ sets w.old (base + i * equation_size) (equation_words q start) }
{
    let b = equation_place(base, i);
    put_three(w, b, q.home, q.position, q.tag);
    put_three(w, b + 3, q.conditions, start, q.count);
}
