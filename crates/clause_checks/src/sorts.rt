// Where rows of two tables are from.
ghost use Rattle.std.specs.Prelude.{◌≡◌, ◌+◌, ◌*◌, ◌≤◌, length};
ghost use Rattle.meaning.specs.Origins.{same_origin};
ghost use Rattle.text_names.specs.Joint.{joint};
ghost use Rattle.form_rows.specs.Rows.{origin_of, row_at, row_size};
ghost use Rattle.form.specs.Memory.{part};

use form_comparing::declarations::same_origin;
use form_rows::rows::read_row;

// Is row i of the table at b from where row j of the table at c is from?
pub fn same_origin_at(
    library: &[u8],
    text: &[u8],
    work: &[u32],
    t: usize,
    b: u32,
    i: u32,
    c: u32,
    j: u32,
) -> bool
    requires { t ≤ length work.now }
    ensures { result ≡ same_origin (origin_of (joint library.now text.now) (part work.now 0 t) (row_at work.now (b + i * row_size)).origin) (origin_of (joint library.now text.now) (part work.now 0 t) (row_at work.now (c + j * row_size)).origin) }
{
    let x = read_row(work, b, i);
    let y = read_row(work, c, j);
    let o = x.origin;
    let p = y.origin;
    same_origin(library, text, &work[0..t], o, p)
}
