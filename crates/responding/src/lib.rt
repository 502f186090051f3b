// What `asfnorm` prints for its input: the first line names the asked module, the second may say how long the library behind it is, and the
// rest is the text. All that it works with is lent.
#![tactic(auto)]

ghost use Rattle.responding.specs.Program.{Refused, Behind, Responded};

use answer::{Answer, lent_short, unread};
use answer_lines::put_answer;
use asf::{memory_size, normalise};
use input_lines::{Framing, framed, has_request, line_end};
use meaning::numbers;

// ---- the answer

// The answer that no text is looked at for, but where the working memory is too short: that is told before all else.
fn refuse(asked: &[u8], work: &mut [u32], r: Answer) -> Answer
    ensures { Refused asked.now r work.old result work.new }
{
    let size = memory_size();
    if work.len() < size {
        memory::zero_all(work);
        return lent_short(asked, 0);
    }
    memory::zero_all(work);
    r
}

// The answer for the asked module, where this is behind the first line.
fn answer_behind(asked: &[u8], rest: &[u8], work: &mut [u32], out: &mut [u8]) -> Answer
    ensures { Behind asked.now rest.now work.old out.old result work.new out.new }
{
    match framed(rest) {
        Framing::Alone => normalise(asked, &rest[0..0], rest, work, out),
        Framing::TooLong => {
            let r = unread(true, numbers::OVER_SIZE, numbers::TEXT_SIZE);
            refuse(asked, work, r)
        }
        Framing::Both { from, to } => normalise(asked, &rest[from..to], &rest[to..], work, out),
    }
}

// ---- what is printed

// What is printed, at the front of `page`, and how long it is. Without the first line the working memory is zero afterwards too.
pub fn respond(input: &[u8], work: &mut [u32], out: &mut [u8], page: &mut [u8]) -> usize
    ensures { Responded input.now work.old out.old page.old result work.new out.new page.new }
{
    let limit = page.len() + 1;
    let e = line_end(input, 10);
    if has_request(input, e) {
        let r = answer_behind(&input[10..e], &input[e + 1..], work, out);
        return put_answer(page, limit, out, r);
    }
    let none = unread(false, numbers::NOT_ALLOWED, 0);
    let r = refuse(b"", work, none);
    put_answer(page, limit, b"", r)
}
