// Where items are declared and where they stand: sections, each as one word of the working memory.
#![tactic(auto)]

ghost use Rattle.std.specs.Prelude.{◌≡◌};
ghost use Rattle.form_sections.specs.Sections.{section_word, word_section};

// Where an item is declared, and where it stands. A parameter carries its name's word.
#[derive(Clone, Copy)]
pub enum Section {
    Export,
    Hidden,
    Parameter(u32),
}

// A section as one word.
pub fn section_word(s: Section) -> u32
    ensures { result ≡ section_word s }
{
    match s {
        Section::Export => 0,
        Section::Hidden => 1,
        Section::Parameter(p) => p.checked_add(2).unwrap_or(1),
    }
}

// The section that a word stands for.
pub fn word_section(w: u32) -> Section
    ensures { result ≡ word_section w }
{
    match w {
        0 => Section::Export,
        1 => Section::Hidden,
        _ => Section::Parameter(w - 2),
    }
}
