// Structure diagrams as C calls it, on slices of bytes and numbers only: each slice is a pointer and a length. Values and names are handed over in
// lent slices, as `asf_normalise` hands them over.
#![tactic(auto)]

ghost use Rattle.std.specs.Prelude.{◌≡◌};
ghost use Rattle.meaning.specs.Texts.{two_texts};
ghost use Rattle.answer.specs.Answers.{told_call};
ghost use Rattle.asf_c.specs.Handed.{handed, handed_call};
ghost use Rattle.diagram_meaning.specs.Answer.{diagram_call};

use answer_values::{put_answer, put_names};
use diagram::diagram;

// The structure diagram of the asked module of the library and the text behind it: its lines at the front of `out`, or a refusal's number.
#[unsafe(no_mangle)]
pub extern "C" fn asf_diagram(
    asked: &[u8],
    library: &[u8],
    text: &[u8],
    work: &mut [u32],
    out: &mut [u8],
    values: &mut [usize],
    names: &mut [u8],
) -> u32
    ensures { handed result out.new work.new values.new names.new ≡ handed_call
        (told_call (diagram_call work.old out.old asked.now (two_texts library.now text.now)))
        values.old names.old }
{
    let r = diagram(asked, library, text, work, out);
    put_answer(values, r);
    put_names(names, r.evaluating, r.culprit, r.actual);
    r.number
}
