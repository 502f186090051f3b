// The answer of a call: document 01's number and values.
#![tactic(auto)]

ghost use Rattle.std.specs.Prelude.{◌≡◌, []};
ghost use Rattle.meaning.specs.Numbers.{asked_absent, lent_short};
ghost use Rattle.meaning.specs.Checks.{lone};
ghost use Rattle.meaning.specs.Reached.{short_or_blank};
ghost use Rattle.meaning.specs.Answer.{refusal, unread};
ghost use Rattle.text_names.specs.Word.{name_of};
ghost use Rattle.text_names.specs.Joint.{joint};
ghost use Rattle.form.specs.Verdicts.{culprit_of};
ghost use Rattle.answer.specs.Answers.{held, told, told_listed};

use form::Culprit;
use meaning::numbers;

// A name of at most 42 bytes, as many as an operator has with its underlines, and zeros behind it. All 42 and the length are what C is handed.
#[derive(Clone, Copy)]
pub struct Name {
    pub bytes: [u8; 42],
    pub length: usize,
}

// The number; how many modules were evaluated, the refused one included; the module evaluated when refused; the culprit, and where a binding's pair
// is wrong the actual name, else a blank one; its place, and whether that is in the library; and how long the listing is. For 6 and 19 the module is
// the asked one, or blank where the asked name has more than 40 bytes: the caller has it.
// No enum of the ways to answer: C is handed the number and all values beside it, told or not.
#[derive(Clone, Copy)]
pub struct Answer {
    pub number: u32,
    pub modules: u32,
    pub evaluating: Name,
    pub culprit: Name,
    pub actual: Name,
    pub at: usize,
    pub in_library: bool,
    pub listing: usize,
}

pub fn blank() -> Name
    ensures { result ≡ held [] }
{
    let bytes = [0; 42];
    Name { bytes, length: 0 }
}

// The name, or a blank one if it has more than 40 bytes.
pub fn short_or_blank(name: &[u8]) -> Name
    ensures { result ≡ held (short_or_blank name.now) }
{
    let mut bytes = [0; 42];
    if numbers::NAME_SIZE < name.len() {
        return blank();
    }
    let length = list_pen::put_text(&mut bytes, 0, 43, name);
    Name { bytes, length }
}

// The name that the word w stands for.
pub fn name_in(library: &[u8], text: &[u8], w: u32) -> Name
    ensures { result ≡ held (name_of (joint library.now text.now) w) }
{
    let mut bytes = [0; 42];
    let length = list_pen::put_name(&mut bytes, 0, 43, library, text, w);
    Name { bytes, length }
}

// The name of the module that the word w stands for, or a blank one if it has more than 40 bytes, which no module's has.
fn module_in(library: &[u8], text: &[u8], w: u32) -> Name
    ensures { result ≡ held (short_or_blank (name_of (joint library.now text.now) w)) }
{
    let name = name_in(library, text, w);
    let size = name.length;
    if numbers::NAME_SIZE < size {
        return blank();
    }
    name
}

// 0, with a listing of so many bytes.
pub fn listed(modules: u32, listing: usize) -> Answer
    ensures { result ≡ told_listed modules listing }
{
    let none = blank();
    Answer {
        number: numbers::ACCEPTED,
        modules,
        evaluating: none,
        culprit: none,
        actual: none,
        at: 0,
        in_library: false,
        listing,
    }
}

// 1 to 5.
pub fn unread(in_library: bool, number: u8, at: usize) -> Answer
    ensures { result ≡ told (unread in_library number at) }
{
    let none = blank();
    Answer {
        number: number as u32,
        modules: 0,
        evaluating: none,
        culprit: none,
        actual: none,
        at,
        in_library,
        listing: 0,
    }
}

// 6.
pub fn absent(asked: &[u8]) -> Answer
    ensures { result ≡ told (refusal asked_absent 0 asked.now (lone (short_or_blank asked.now)) 0) }
{
    let none = blank();
    let name = short_or_blank(asked);
    Answer {
        number: numbers::ASKED_ABSENT,
        modules: 0,
        evaluating: name,
        culprit: name,
        actual: none,
        at: 0,
        in_library: false,
        listing: 0,
    }
}

// 7 to 18, and 22 to 27.
pub fn refused(
    library: &[u8],
    text: &[u8],
    number: u32,
    modules: u32,
    module: u32,
    culprit: Culprit,
) -> Answer
    ensures { result ≡ told (refusal number modules (name_of (joint library.now text.now) «module») (culprit_of (joint library.now text.now) culprit) 0) }
{
    let evaluating = module_in(library, text, module);
    let name = name_in(library, text, culprit.name);
    let actual = name_in(library, text, culprit.actual);
    Answer {
        number,
        modules,
        evaluating,
        culprit: name,
        actual,
        at: 0,
        in_library: false,
        listing: 0,
    }
}

// 19.
pub fn lent_short(asked: &[u8], modules: u32) -> Answer
    ensures { result ≡ told (refusal lent_short modules asked.now (lone []) 0) }
{
    let none = blank();
    let evaluating = short_or_blank(asked);
    Answer {
        number: numbers::LENT_SHORT,
        modules,
        evaluating,
        culprit: none,
        actual: none,
        at: 0,
        in_library: false,
        listing: 0,
    }
}
