// Whom an answer names (document 02, orders 1 and 2): for a request that got an answer, from the arrays that it left, and the line of text that says so. A refused
// request leaves the record as it was, so that the reason can be looked for afterwards.
#![tactic(auto)]

mod blocking;
mod offending;
pub mod text;

ghost use Rattle.std.specs.Prelude.{◌≡◌};
ghost use Rattle.marks.specs.Answers.{answer_number};
ghost use Rattle.marks.specs.Requests.{code_of, first_of, second_of};
ghost use Rattle.naming.specs.Told.{nobody_for, somebody_for, number_alone};
ghost use Rattle.naming.specs.Blocking.{named_in};

use blocking::{blocked, first_child};
use marks::answers::{Answer, Refusal, number};
use marks::requests::Request;
pub use offending::instrument_of;
use offending::{first_number, offending};

// Whom an answer names: for 6 with whether that one owns the instrument for reading and for writing and whether it drains.
#[derive(Clone, Copy, Debug, PartialEq, Eq)]
pub struct Somebody {
    pub number: u32,
    pub reads: bool,
    pub writes: bool,
    pub drains: bool,
}

// The answer, and whom it names: for 1 to 4 the offending number, for 5 the smallest running child, for 6 the smallest-numbered owner that blocks, for 10 the
// action that isn't draining. 0, 7 and 8 name nobody.
#[derive(Clone, Copy, Debug, PartialEq, Eq)]
pub struct Reason {
    pub answer: u8,
    pub names: Option<Somebody>,
}

// Somebody of whom the number alone is told.
fn number_alone(number: u32) -> Somebody
    ensures { result ≡ number_alone number }
{
    Somebody {
        number,
        reads: false,
        writes: false,
        drains: false,
    }
}

fn nobody(answer: Answer) -> Reason
    ensures { result ≡ nobody_for (answer_number answer) }
{
    Reason {
        answer: number(answer),
        names: None,
    }
}

fn naming(answer: Answer, somebody: Somebody) -> Reason
    ensures { result ≡ somebody_for (answer_number answer) somebody }
{
    Reason {
        answer: number(answer),
        names: Some(somebody),
    }
}

// Whom an answer names that a line's request got, if the line made one, on the arrays that it left, with the readers and the writers of the instrument that it asks
// for. Exact on any bytes; on those of a bench it is the rules' reason.
pub fn named_of_request<'a>(
    parents: &'a [u8; 64],
    states: &'a [u8; 64],
    readers: u64,
    writers: u64,
    asked: Option<Request>,
    answer: Answer,
) -> Reason
    ensures { result ≡ named_in parents.now states.now readers writers (code_of asked) (first_of asked) (second_of asked) (answer_number answer) }
{
    let Err(refusal) = answer else {
        return nobody(answer);
    };
    match refusal {
        Refusal::Unsound | Refusal::Malformed | Refusal::NoRoom | Refusal::TooLong => {
            nobody(answer)
        }
        Refusal::NotGranted => {
            let blocker = blocked(parents, states, readers, writers, asked);
            naming(answer, blocker)
        }
        Refusal::HasRunningChild => {
            let parent = (first_number(asked) % 64) as u8 + 1;
            let child = first_child(parents, states, parent).unwrap_or(0);
            naming(answer, number_alone(child))
        }
        _ => naming(answer, number_alone(offending(asked, refusal))),
    }
}

// Whom an answer names that a frame got: the request by its code and two numbers, a spare one ignored, and the answer by its number. Of a code that makes no request
// the first number is told and never the second, as of a commit. An answer that is no refusal's names nobody and keeps its number.
pub fn named<'a>(
    parents: &'a [u8; 64],
    states: &'a [u8; 64],
    readers: u64,
    writers: u64,
    code: u8,
    x: u32,
    y: u32,
    answer: u8,
) -> Reason
    ensures { result ≡ named_in parents.now states.now readers writers code x y answer }
{
    let Ok(refusal) = Refusal::try_from(answer) else {
        return Reason {
            answer,
            names: None,
        };
    };
    let asked = Request::framed(code, x, y).unwrap_or(Request::Commit(x));
    named_of_request(parents, states, readers, writers, Some(asked), Err(refusal))
}
