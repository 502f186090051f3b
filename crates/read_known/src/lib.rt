// Names of the modules that stand before a text, in the library.
#![tactic(auto)]

ghost use Rattle.std.specs.Prelude.{◌≡◌};
ghost use Rattle.meaning.specs.Names.{member};
ghost use Rattle.text_names.specs.Word.{name_of};
ghost use Rattle.read_known.specs.Known.{named_so};

// Has one of the library's modules the name that w is of the text? Their names are these words.
pub fn is_known(library: &[u8], heads: &[u32], text: &[u8], w: u32) -> bool
    ensures { result ≡ member (name_of text.now w) (named_so library.now heads.now) }
{
    heads.iter().any(|head| text_names::joint::same_between(library, *head, text, w))
}
