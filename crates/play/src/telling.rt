// What is written for a line that has ended: its answer, or its answer's reason.
ghost use Rattle.std.specs.Prelude.{List, ◌≡◌, ℕ, ◌+◌, ◌<◌, leb, length};
ghost use Rattle.std.proofs.Common.{lit≤};
ghost use Rattle.std.proofs.Math.Option.{Option};
ghost use Rattle.rules.specs.Bench as rules;
ghost use Rattle.rules.specs.Requests.{Request};
ghost use Rattle.marks.specs.Answers.{answer_number};
ghost use Rattle.lines.specs.Lines.{answer_line};
ghost use Rattle.lines.proofs.FeedLaws.{Within};
ghost use Rattle.naming.specs.Text.{longest, reason_line};
ghost use Rattle.naming.proofs.Texts.{reason_short};
ghost use Rattle.play.specs.Telling.{LineText, answer_after, reason_after, TextSaid, PutWithin};
ghost use Rattle.play.specs.Saying.{answer_said, reason_said};

use crate::owners::WRITES;
use marks::answers::{Answer, number};
use marks::requests::Request;
use naming::text::text_of;
use naming::{instrument_of, named_of_request};

// Whether a buffer has room for so many bytes from a place on.
pub(crate) fn has_room(out: &[u8], at: usize, width: usize) -> bool
    ensures { result ≡ leb (at + width) (length out.now) }
{
    width <= out.len() && at <= out.len() - width
}

// What is written for a line that has ended.
pub trait Telling {
    // At most so many bytes.
    const WIDTH: usize;

    ghost WIDTH: { ℕ };

    // As said of the bench before the line.
    ghost say: { rules.Bench → Option Request → List ℕ };

    // As it is written from the arrays that the line left.
    ghost text: { LineText };

    // Puts it at a place, from the arrays that the line left, and hands back where it ends. Where there may be no room for it, nothing is put.
    fn put<'a>(
        parents: &'a [u8; 64],
        states: &'a [u8; 64],
        owners: &'a [u64; 256],
        asked: Option<Request>,
        answer: Answer,
        out: &mut [u8],
        at: usize,
    ) -> usize
        ensures { PutWithin WIDTH (text parents.now states.now owners.now asked (answer_number answer)) out.old at out.new result };

    ghost some: { 0 < WIDTH };

    ghost short: { Within say WIDTH };

    ghost told: { TextSaid text say };
}

// The answer alone.
pub struct Answers;

impl Telling for Answers {
    const WIDTH: usize = 3;

    ghost WIDTH = { 3 };

    ghost say = { answer_line };

    ghost text = { answer_after };

    fn put<'a>(
        parents: &'a [u8; 64],
        states: &'a [u8; 64],
        owners: &'a [u64; 256],
        asked: Option<Request>,
        answer: Answer,
        out: &mut [u8],
        at: usize,
    ) -> usize {
        if !has_room(out, at, 3) {
            return at;
        }
        let text = [b'0', digits::character(number(answer)), b'\n'];
        out[at..at + 3].copy_from_slice(&text);
        at + 3
    }

    ghost some = { lit≤ tt };

    ghost short = { λ b r. lit≤ tt };

    ghost told = { answer_said };
}

// The answer's reason: whom it names, and for 6 how that one owns the instrument and whether it drains.
pub struct Reasons;

impl Telling for Reasons {
    const WIDTH: usize = 23;

    ghost WIDTH = { longest };

    ghost say = { reason_line };

    ghost text = { reason_after };

    fn put<'a>(
        parents: &'a [u8; 64],
        states: &'a [u8; 64],
        owners: &'a [u64; 256],
        asked: Option<Request>,
        answer: Answer,
        out: &mut [u8],
        at: usize,
    ) -> usize {
        if !has_room(out, at, 23) {
            return at;
        }
        let i = instrument_of(asked);
        let text = text_of(named_of_request(
            parents,
            states,
            owners[i],
            owners[WRITES + i],
            asked,
            answer,
        ));
        let end = at + text.size;
        out[at..end].copy_from_slice(&text.bytes[..text.size]);
        end
    }

    ghost some = { lit≤ tt };

    ghost short = { reason_short };

    ghost told = { reason_said };
}
