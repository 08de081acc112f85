// The answer that a frame gets.
ghost use Rattle.std.specs.Prelude.{◌≡◌};
ghost use Rattle.rules.specs.ReadWrite.{read_write};
ghost use Rattle.rules.specs.Reasons.{reason_of};
ghost use Rattle.marks.specs.Answers.{answer_number};
ghost use Rattle.marks.specs.Requests.{meant_by};
ghost use Rattle.bench.specs.Record.{viewed};

use bench::Bench;
use marks::answers::{Answer, Refusal};
use marks::requests::Request;

// The answer that a frame gets from the bench's own request; one that makes no request is malformed.
pub(crate) fn answer_of(mut bench: Bench, asked: Option<Request>) -> Answer
    ensures { answer_number result ≡ (reason_of read_write (viewed bench) (meant_by asked)).answer }
{
    match asked {
        Some(request) => bench.make(request),
        None => Err(Refusal::Malformed),
    }
}
