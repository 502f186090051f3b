// The listing of a normal form, written to lent output: all of it or nothing. The form is in order, and its tape stands in front of the
// working memory.
#![tactic(auto)]

ghost use Rattle.std.specs.Prelude.{◌≡◌, ◌^◌, ◌<◌, ◌≤◌, length};
ghost use Rattle.text_names.specs.Joint.{joint};
ghost use Rattle.form.specs.Memory.{part};
ghost use Rattle.list_pen.specs.Pen.{pen, written};
ghost use Rattle.list.specs.Lines.{listing_text};
ghost use Rattle.list.specs.Fit.{result_of, fitted};

use form::Form;
use list_lines::put_line;
use list_parts::{put_hidden, put_visible};

// The listing of the form f of the module whose name's word is `name`.
pub fn put_listing(
    out: &mut [u8],
    at: usize,
    limit: usize,
    library: &[u8],
    text: &[u8],
    tape: &[u32],
    work: &[u32],
    name: u32,
    f: Form,
) -> usize
    requires { f.hidden_count < 2 ^ 31 }
    ensures { pen result out.new ≡ written limit (listing_text (joint library.now text.now) tape.now work.now name f) (pen at out.old) }
{
    let a = put_line(out, at, limit, library, text, b"module", name);
    let b = put_visible(out, a, limit, library, text, tape, work, f);
    let c = put_hidden(out, b, limit, library, text, tape, work, f);
    put_line(out, c, limit, library, text, b"end", name)
}

// The same listing at the front of `out`, and how many bytes it has, if all of it has room there; else `out` stays as it was.
pub fn write_listing(
    library: &[u8],
    text: &[u8],
    work: &[u32],
    t: usize,
    name: u32,
    f: Form,
    out: &mut [u8],
) -> Option<usize>
    requires t_in_bounds { t ≤ length work.now }
    requires hidden_count_bound { f.hidden_count < 2 ^ 31 }
    ensures { result_of result out.new ≡ fitted (listing_text (joint library.now text.now) (part work.now 0 t) work.now name f) out.old }
{
    let room = out.len();
    let size = put_listing(
        &mut out[0..0],
        0,
        room + 1,
        library,
        text,
        &work[0..t],
        work,
        name,
        f,
    );
    if room < size {
        return None;
    }
    let end = put_listing(out, 0, room + 1, library, text, &work[0..t], work, name, f);
    Some(end)
}
