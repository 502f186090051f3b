// Identifiers of a text: which bytes they have, and where one ends.
#![tactic(auto)]

ghost use Rattle.std.specs.Prelude.{◌≡◌, ℕ, Bool};
ghost use Rattle.meaning.specs.Tokens.{is_word, run_end, at_hyphen, at_word};
ghost use Rattle.text_words.specs.Tests.{Tells, in_front};

use text_spelling::byte_at;

// Is b a letter, a digit or the single quote?
pub fn is_word(b: u8) -> bool
    ensures { result ≡ is_word b }
{
    b.is_ascii_alphanumeric() || b == b'\''
}

// Past the bytes from `at` on that pass a test.
pub fn run_end<F: Fn(u8) -> bool>(text: &[u8], at: usize, passes: F) -> usize
    requires { F.IsAlwaysCallable passes }
    ensures { (test : ℕ → Bool) → Tells (F.post passes) test → result ≡ run_end (in_front test) text.now at }
{
    for i in at..text.len() {
        if !passes(text[i]) {
            return i;
        }
    }
    at.max(text.len())
}

// Past the hyphens at `at`.
fn hyphens_end(text: &[u8], at: usize) -> usize
    ensures { result ≡ run_end at_hyphen text.now at }
{
    run_end(text, at, |b| b == b'-')
}

// Past the identifier at `at`.
pub fn word_end(text: &[u8], at: usize) -> usize
    ensures { result ≡ run_end at_word text.now at }
{
    let mut i = at;
    // a while: each turn goes over hyphens and the one byte behind them, so that no hyphen is read twice
    while i < text.len() {
        let j = hyphens_end(text, i);
        if is_word(byte_at(text, j)) {
            i = j + 1;
        } else {
            return i;
        }
    }
    i
}
