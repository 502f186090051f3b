// 9: a parameter's name, or a sort or a function (with its type) of one section, that is declared a second time.
ghost use Rattle.std.specs.Prelude.{◌≡◌, ◌-◌};
ghost use Rattle.text_names.specs.Joint.{joint};
ghost use Rattle.form.specs.Verdicts.{told};
ghost use Rattle.own_repeats.specs.Scans.{found, walked};
ghost use Rattle.own_repeats.specs.Once.{is_declaring, repeats, section_start, once_at};

use form::{Culprit, Refusal};
use form_comparing::declarations::same_declared;
use form_rows::entries::{is_parameter_role, last_with, name_at, role_at, same_name_at};
use meaning::numbers;
use tape::roles;

// Does an entry with the role declare a parameter, a sort or a function?
fn is_declaring(role: u32) -> bool
    ensures { result ≡ is_declaring role }
{
    if role < roles::PARAMETER {
        return false;
    }
    role < roles::INPUT
}

// Says the declaration at i what the one at j says, with the same role? Names are compared first: they decide most.
fn repeats(library: &[u8], text: &[u8], tape: &[u32], i: u32, j: u32) -> bool
    ensures { result ≡ repeats (joint library.now text.now) tape.now i j }
{
    if role_at(tape, i as usize) == role_at(tape, j as usize) {
        if same_name_at(library, text, tape, i as usize, j as usize) {
            return same_declared(library, text, tape, i, j);
        }
        return false;
    }
    false
}

// Where the section of the declaration at i begins: with its parameter, or else with the module's entries, at a.
fn section_start(tape: &[u32], a: u32, i: u32) -> u32
    ensures { result ≡ section_start tape.now a i }
{
    let role = role_at(tape, i as usize);
    if is_parameter_role(role) {
        return last_with(tape, roles::PARAMETER, i as usize) as u32;
    }
    a
}

// Does the declaration at i repeat one from `start` on?
fn is_repeat(library: &[u8], text: &[u8], tape: &[u32], start: u32, i: u32) -> bool
    ensures { result ≡ found (repeats (joint library.now text.now) tape.now i) start (i - start) }
{
    for j in start..i {
        if repeats(library, text, tape, i, j) {
            return true;
        }
    }
    false
}

fn once_at(library: &[u8], text: &[u8], tape: &[u32], a: u32, i: u32) -> Result<(), Refusal>
    ensures { told (joint library.now text.now) result ≡ once_at (joint library.now text.now) tape.now a i }
{
    let role = role_at(tape, i as usize);
    if is_declaring(role) {
        let start = section_start(tape, a, i);
        if is_repeat(library, text, tape, start, i) {
            let name = name_at(tape, i as usize);
            return Err(Refusal {
                number: numbers::DECLARED_TWICE,
                culprit: Culprit { name, actual: 0 },
            });
        }
        return Ok(());
    }
    Ok(())
}

// The entries from a up to e: told at the first that repeats another.
pub fn declared_once(
    library: &[u8],
    text: &[u8],
    tape: &[u32],
    a: u32,
    e: u32,
) -> Result<(), Refusal>
    ensures { told (joint library.now text.now) result ≡ walked (once_at (joint library.now text.now) tape.now a) a (e - a) }
{
    for i in a..e {
        once_at(library, text, tape, a, i)?;
    }
    Ok(())
}
