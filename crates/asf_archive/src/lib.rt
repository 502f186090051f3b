// The library as C links it: the functions that c/asf.h declares, in one archive. An archive has the exports of one crate alone, so each stands
// here again under its own clauses and calls the one of `asf_c`, `parts_c` or `ask_c`, where it is made.
#![tactic(auto)]

ghost use Rattle.std.specs.Prelude.{◌≡◌};
ghost use Rattle.meaning.specs.Texts.{two_texts, fetched};
ghost use Rattle.meaning.specs.Contract.{call};
ghost use Rattle.meaning.specs.Numbers.{memory_size};
ghost use Rattle.answer.specs.Answers.{told_call};
ghost use Rattle.reader.specs.Places.{places_at};
ghost use Rattle.reader.specs.Visible.{visible_end};
ghost use Rattle.ask_decision.specs.Decide.{deciding};
ghost use Rattle.asf_c.specs.Handed.{handed, handed_call};
ghost use Rattle.parts_c.specs.Handed.{valued, handed_line, handed_part};
ghost use Rattle.ask_c.specs.Handed.{DecisionHanded, NameHanded};

// ---- normalising

// The number of words that the working memory has at the least.
#[unsafe(no_mangle)]
pub extern "C" fn asf_memory_words() -> usize
    ensures { result ≡ memory_size }
{
    asf_c::asf_memory_words()
}

// Normalises the asked module of the library and the text behind it: the listing at the front of `out`, or a refusal's number.
#[unsafe(no_mangle)]
pub extern "C" fn asf_normalise(
    asked: &[u8],
    library: &[u8],
    text: &[u8],
    work: &mut [u32],
    out: &mut [u8],
    values: &mut [usize],
    names: &mut [u8],
) -> u32
    ensures { handed result out.new work.new values.new names.new ≡ handed_call (told_call (call work.old out.old asked.now (two_texts library.now text.now))) values.old names.old }
{
    asf_c::asf_normalise(asked, library, text, work, out, values, names)
}

// ---- a module's text, and a listing's lines

// The part of a text that declares a module: its mark, its place and its length, and 0; or 1, where there is none.
#[unsafe(no_mangle)]
pub extern "C" fn asf_fetch(name: &[u8], library: &[u8], text: &[u8], values: &mut [usize]) -> u32
    ensures { valued result values.new ≡ handed_part (fetched (two_texts library.now text.now) name.now) values.old }
{
    parts_c::asf_fetch(name, library, text, values)
}

// Reads the line at a place of a listing: 0 with the line's places, 1 at the end, 21 where no line stands.
#[unsafe(no_mangle)]
pub extern "C" fn asf_line(listing: &[u8], place: usize, values: &mut [usize]) -> u32
    ensures { valued result values.new ≡ handed_line (places_at listing.now place) values.old }
{
    parts_c::asf_line(listing, place, values)
}

// How long the visible part of a listing is, which stands in front.
#[unsafe(no_mangle)]
pub extern "C" fn asf_visible(listing: &[u8]) -> usize
    ensures { result ≡ visible_end listing.now }
{
    parts_c::asf_visible(listing)
}

// ---- asking again

// Decides whether the stored visible part of the asked module is kept, from the old specification to the new one: 0, once the modules of a set are
// answered 0; 1, the module itself is asked; 2, one of the two is not read; 19, too little working memory is lent.
#[unsafe(no_mangle)]
pub extern "C" fn asf_decide(
    asked: &[u8],
    old_library: &[u8],
    old_text: &[u8],
    new_library: &[u8],
    new_text: &[u8],
    work: &mut [u32],
    values: &mut [usize],
    names: &mut [u8],
) -> u32
    ensures { DecisionHanded result work.new values.new names.new values.old names.old (deciding work.old asked.now (two_texts old_library.now old_text.now) (two_texts new_library.now new_text.now)) }
{
    ask_c::asf_decide(
        asked,
        old_library,
        old_text,
        new_library,
        new_text,
        work,
        values,
        names,
    )
}

// The length of the name of module k, and at the front of `names` the name, in 42 bytes; 0 where there is none.
#[unsafe(no_mangle)]
pub extern "C" fn asf_module_name(
    library: &[u8],
    text: &[u8],
    k: u32,
    work: &mut [u32],
    names: &mut [u8],
) -> usize
    ensures { NameHanded result work.new names.new work.old names.old (two_texts library.now text.now) k }
{
    ask_c::asf_module_name(library, text, k, work, names)
}
