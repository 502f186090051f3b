// Which modules to ask again, as C calls it, on slices of bytes and numbers only: each slice is a pointer and a length. Values and names are handed
// over in lent slices; what has no room there is left out. The library has the functions of `asf_c` and `parts_c` too.
#![tactic(auto)]

ghost use Rattle.meaning.specs.Texts.{two_texts};
ghost use Rattle.ask_decision.specs.Decide.{deciding};
ghost use Rattle.ask_c.specs.Handed.{DecisionHanded, NameHanded};

use ask::{decide, module_name};
use ask_values::{put_decision, put_names};
use list_pen::put_text;

// Decides whether the stored visible part of the asked module is kept, from the old specification to the new one: 0, once the modules of a set are
// answered 0; 1, the module itself is asked; 2, one of the two is not read; 19, too little working memory is lent.
#[unsafe(no_mangle)]
pub extern "C" fn asf_decide(
    asked: &[u8],
    old_library: &[u8],
    old_text: &[u8],
    new_library: &[u8],
    new_text: &[u8],
    work: &mut [u32],
    values: &mut [usize],
    names: &mut [u8],
) -> u32
    ensures { DecisionHanded result work.new values.new names.new values.old names.old (deciding work.old asked.now (two_texts old_library.now old_text.now) (two_texts new_library.now new_text.now)) }
{
    let r = decide(asked, old_library, old_text, new_library, new_text, work);
    put_decision(values, r);
    put_names(names, r.by, r.name);
    r.answer
}

// The length of the name of module k, and at the front of `names` the name, in 42 bytes; 0 where there is none.
#[unsafe(no_mangle)]
pub extern "C" fn asf_module_name(
    library: &[u8],
    text: &[u8],
    k: u32,
    work: &mut [u32],
    names: &mut [u8],
) -> usize
    ensures { NameHanded result work.new names.new work.old names.old (two_texts library.now text.now) k }
{
    let name = module_name(library, text, work, k);
    let limit = names.len() + 1;
    let bytes = name.bytes;
    put_text(names, 0, limit, &bytes);
    name.length
}
