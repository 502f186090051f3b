// A module's text: the part of whichever of the two lent texts declares it. Nothing is copied.
#![tactic(auto)]

ghost use Rattle.std.specs.Prelude.{◌≡◌};
ghost use Rattle.meaning.specs.Texts.{two_texts, ends_part, part_end, no_part, part_of, fetched, part_bytes};

use meaning::numbers;
use types::Part;

// Does no module go on at a token of this kind?
fn ends_part(kind: u8) -> bool
    ensures { result ≡ ends_part kind }
{
    if kind == text_tokens::MODULE_KEY {
        return true;
    }
    if kind == text_tokens::END_OF_TEXT {
        return true;
    }
    kind == text_tokens::NO_TOKEN
}

// Where the last token of a module ends; one of its tokens ends at `at`.
fn part_end(text: &[u8], at: usize) -> usize
    ensures { result ≡ part_end text.now 32768 at }
{
    let mut i = at;
    // the turns left are the definition's
    for left in (0..numbers::TEXT_SIZE).rev() {
        let t = text_tokens::next_token(text, i);
        let kind = t.kind;
        if ends_part(kind) {
            return i;
        }
        i = t.end;
    }
    i
}

fn no_part() -> Part
    ensures { result ≡ no_part }
{
    Part {
        marked: false,
        start: 0,
        end: 0,
    }
}

// The part of the text that declares the module, marked so; none where none is called so.
fn part_of(text: &[u8], marked: bool, name: &[u8]) -> Part
    ensures { result ≡ part_of text.now marked name.now }
{
    let mut i = 0;
    // the turns left are the definition's
    for left in (0..numbers::MODULE_LIMIT).rev() {
        let t = text_tokens::next_token(text, i);
        let kind = t.kind;
        if kind == text_tokens::MODULE_KEY {
            let start = t.start;
            let u = text_tokens::next_token(text, t.end);
            let from = u.start;
            let to = u.end;
            let end = part_end(text, to);
            if text_names::same_bytes(name, &text[from..to]) {
                return Part { marked, start, end };
            }
            i = end;
        } else {
            return no_part();
        }
    }
    no_part()
}

// Where the module's text stands: in the library, and then it is marked, or in the customer's text.
pub fn find(library: &[u8], text: &[u8], name: &[u8]) -> Part
    ensures { result ≡ fetched (two_texts library.now text.now) name.now }
{
    let l = part_of(library, true, name);
    let marked = l.marked;
    if marked {
        return l;
    }
    part_of(text, false, name)
}

// The module's text itself; nothing where there is none.
pub fn fetch<'a>(library: &'a [u8], text: &'a [u8], name: &[u8]) -> &'a [u8]
    ensures { result.now ≡ part_bytes (two_texts library.now text.now) (fetched (two_texts library.now text.now) name.now) }
{
    let p = find(library, text, name);
    let marked = p.marked;
    let start = p.start;
    let end = p.end;
    if marked {
        return &library[start..end];
    }
    &text[start..end]
}
