// The answer of a call for a diagram of more than 1,024 lines.
#![tactic(auto)]

ghost use Rattle.std.specs.Prelude.{◌≡◌, []};
ghost use Rattle.meaning.specs.Numbers.{no_room};
ghost use Rattle.meaning.specs.Checks.{lone};
ghost use Rattle.meaning.specs.Answer.{refusal};
ghost use Rattle.answer.specs.Answers.{told};

use answer::{Answer, blank, short_or_blank};
use meaning::numbers;

// 18.
pub fn over_lines(asked: &[u8]) -> Answer
    ensures { result ≡ told (refusal no_room 0 asked.now (lone []) 0) }
{
    let none = blank();
    let evaluating = short_or_blank(asked);
    Answer {
        number: numbers::NO_ROOM,
        modules: 0,
        evaluating,
        culprit: none,
        actual: none,
        at: 0,
        in_library: false,
        listing: 0,
    }
}
