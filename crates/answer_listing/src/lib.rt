// The answer for a module that was evaluated: its listing at the front of the output, or 19 where it is longer than that.
#![tactic(auto)]

ghost use Rattle.meaning.specs.Texts.{two_texts, read_texts};
ghost use Rattle.text_names.specs.Joint.{joint};
ghost use Rattle.answer_listing.specs.Answered.{Answered, Evaluated};

use answer::{Answer, lent_short, listed};
use form_keeping::read_form;
use form_layout::table_start;
use list::write_listing;

// The listing of the form kept for module number `last`, under the name, after `count` modules were evaluated; 19 where it is longer than the
// lent output.
pub fn list_module(
    asked: &[u8],
    library: &[u8],
    text: &[u8],
    work: &[u32],
    t: usize,
    name: u32,
    count: u32,
    last: u32,
    out: &mut [u8],
) -> Answer
    requires { Evaluated asked.now (read_texts (two_texts library.now text.now)) (joint library.now text.now) t work.now name count last }
    ensures { Answered asked.now (read_texts (two_texts library.now text.now)) out.old result out.new }
{
    let table = table_start();
    let f = read_form(work, table, last);
    match write_listing(library, text, work, t, name, f, out) {
        Some(n) => listed(count, n),
        None => lent_short(asked, count),
    }
}
