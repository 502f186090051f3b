// A module's own parameters, each with the module's name, behind those that it imports.
ghost use Rattle.std.specs.Prelude.{◌^◌, ◌≤◌, ◌<◌, length};
ghost use Rattle.own_declarations.specs.Sorts.{Ready};
ghost use Rattle.own_items.specs.Parameters.{SlotPut, SlotsRoom, SlotsAppended};

use form::SLOT_STEP;
use form_rows::entries::{home_at, name_at, put_word, role_at};
use own_declarations::Own;
use tape::roles;

// The parameter that is declared at i, its name and its module's, stored at `place`.
fn put_parameter(work: &mut [u32], t: usize, place: usize, i: u32)
    requires t_in_bounds { t ≤ length work.old }
    requires place_bound { place < 2 ^ 40 }
    ensures { SlotPut t place i work.old work.new }
{
    let name = name_at(&work[0..t], i as usize);
    let home = home_at(&work[0..t], i);
    put_word(work, place, name);
    put_word(work, place + 1, home);
}

// The module's parameters, in text order, behind the n at `base`. Their number after.
pub fn own_parameters(work: &mut [u32], t: usize, own: Own, base: u32, n: u32) -> u32
    requires ready { Ready work.old t own }
    requires slots_room { SlotsRoom (length work.old) t own.from own.end base n }
    ensures { SlotsAppended t own.from own.end base n work.old work.new result }
{
    let end = own.end;
    let mut k = n;
    for i in own.from..end {
        if role_at(&work[0..t], i as usize) != roles::PARAMETER {
            continue;
        }
        put_parameter(work, t, base as usize + k as usize * SLOT_STEP, i);
        k += 1;
    }
    k
}
