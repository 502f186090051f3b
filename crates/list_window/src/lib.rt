// One byte written to lent output. The same calls count and write: lent no output, they only move the place; lent less than the limit asks,
// they write the part that ends one before it.
#![tactic(auto)]

ghost use Rattle.std.specs.Prelude.{◌≡◌, [], ◌∷◌, ◌+◌, ◌-◌};
ghost use Rattle.list_window.specs.Pen.{shown, pen, written};

// How many places lie before a window of `size` places.
fn places_before(limit: usize, size: usize) -> usize
    ensures { result ≡ limit - (size + 1) }
{
    limit.saturating_sub(size).saturating_sub(1)
}

// One byte at `at`, through a window behind so many places.
fn show(out: &mut [u8], before: usize, at: usize, byte: u8)
    ensures { out.new ≡ shown before at byte out.old }
{
    if before <= at {
        let i = at - before;
        if i < out.len() {
            out[i] = byte;
        }
    }
}

// One byte at `at`. The next place; it never passes the limit.
pub fn put(out: &mut [u8], at: usize, limit: usize, byte: u8) -> usize
    ensures { pen result out.new ≡ written limit (byte ∷ []) (pen at out.old) }
{
    if at < limit {
        let before = places_before(limit, out.len());
        show(out, before, at, byte);
        return at + 1;
    }
    at
}
