// Normalising as C calls it, on slices of bytes and numbers only: each slice is a pointer and a length. Values and names are handed over in
// lent slices; what has no room there is left out. The library has the functions of `parts_c` too.
#![tactic(auto)]

ghost use Rattle.std.specs.Prelude.{◌≡◌};
ghost use Rattle.meaning.specs.Texts.{two_texts};
ghost use Rattle.meaning.specs.Contract.{call};
ghost use Rattle.meaning.specs.Numbers.{memory_size};
ghost use Rattle.answer.specs.Answers.{told_call};
ghost use Rattle.asf_c.specs.Handed.{handed, handed_call};

use answer_values::{put_answer, put_names};
use asf::{memory_size, normalise};

// The number of words that the working memory has at the least.
#[unsafe(no_mangle)]
pub extern "C" fn asf_memory_words() -> usize
    ensures { result ≡ memory_size }
{
    memory_size()
}

// Normalises the asked module of the library and the text behind it: the listing at the front of `out`, or a refusal's number.
#[unsafe(no_mangle)]
pub extern "C" fn asf_normalise(
    asked: &[u8],
    library: &[u8],
    text: &[u8],
    work: &mut [u32],
    out: &mut [u8],
    values: &mut [usize],
    names: &mut [u8],
) -> u32
    ensures { handed result out.new work.new values.new names.new ≡ handed_call (told_call (call work.old out.old asked.now (two_texts library.now text.now))) values.old names.old }
{
    let r = normalise(asked, library, text, work, out);
    put_answer(values, r);
    put_names(names, r.evaluating, r.culprit, r.actual);
    r.number
}
