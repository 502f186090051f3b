// Which sections are one.
ghost use Rattle.std.specs.Prelude.{◌≡◌};
ghost use Rattle.meaning.specs.Origins.{same_section};
ghost use Rattle.text_names.specs.Joint.{joint};
ghost use Rattle.form_rows.specs.Rows.{section_of};

use super::entries::same_word;
use form_sections::Section;

// Are a and b one section? Of two parameters the names decide.
pub fn same_section(library: &[u8], text: &[u8], a: Section, b: Section) -> bool
    ensures { result ≡ same_section (section_of (joint library.now text.now) a) (section_of (joint library.now text.now) b) }
{
    match (a, b) {
        (Section::Export, Section::Export) => true,
        (Section::Hidden, Section::Hidden) => true,
        (Section::Parameter(p), Section::Parameter(q)) => same_word(library, text, p, q),
        _ => false,
    }
}
