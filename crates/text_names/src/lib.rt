// Names of a text: which of two comes first. The bytes of a name (`text_spelling`) and of two texts (`text_by_bytes`), where an identifier ends
// (`text_words`) and whether two names are the same (`text_places`) are handed on.
#![tactic(auto)]

pub mod joint;

ghost use Rattle.std.specs.Prelude.{◌≡◌};
ghost use Rattle.std.specs.Ordering.{ordering_index};
ghost use Rattle.meaning.specs.Names.{same, not_after};
ghost use Rattle.text_names.specs.Word.{name_of};
ghost use Rattle.text_runs.specs.Orders.{compared};
ghost use Rattle.text_runs.specs.Runs.{Seen};
ghost use Rattle.text_runs.specs.Codes.{seen_index};

use std::cmp::Ordering;
pub use text_by_bytes::compare_bytes;
use text_comparing::compare_names;
pub use text_places::same_name;
use text_places::{are_plain, token_end, token_start};
pub use text_spelling::{byte_at, same_bytes};
pub use text_words::{is_word, run_end, word_end};

// Which of two names comes first, where that is seen at once.
fn compare_at_once(text: &[u8], a: u32, b: u32) -> Option<Ordering>
    ensures { Seen (name_of text.now a) (name_of text.now b) (seen_index result) }
{
    if are_plain(a, b) {
        let x = token_start(text, a);
        let y = token_start(text, b);
        let n = token_end(text, a);
        let m = token_end(text, b);
        return compare_names(&text[x..n], &text[y..m]);
    }
    None
}

// Which of two names comes first, `Equal` if they are the same: as of two texts, the library being empty.
pub fn compare(text: &[u8], a: u32, b: u32) -> Ordering
    ensures { ordering_index result ≡ compared (name_of text.now a) (name_of text.now b) }
{
    joint::compare(&text[0..0], text, a, b)
}

// Are a and b the same name, or does a come first?
pub fn not_after(text: &[u8], a: u32, b: u32) -> bool
    ensures { result ≡ not_after (name_of text.now a) (name_of text.now b) }
{
    compare(text, a, b).is_le()
}

// Has the name a the bytes of `asked`?
pub fn is_called(text: &[u8], a: u32, asked: &[u8]) -> bool
    ensures { result ≡ same (name_of text.now a) asked.now }
{
    joint::is_called(&text[0..0], text, a, asked)
}
