// The numbers of a request, and the one of them that offends.
ghost use Rattle.std.specs.Prelude.{◌≡◌, ◌%◌};
ghost use Rattle.marks.specs.Answers.{refusal_number};
ghost use Rattle.marks.specs.Requests.{code_of, first_of, second_of};
ghost use Rattle.naming.specs.Blocking.{offending_in};

use marks::answers::Refusal;
use marks::requests::Request;
use marks::requests::Request::{Abort, Commit, OpenSub, OpenTop, Quiet, Read, Write};

// The first number of a request, and 0 where there is none.
pub(crate) fn first_number(asked: Option<Request>) -> u32
    ensures { result ≡ first_of asked }
{
    match asked {
        Some(OpenTop(a) | OpenSub(a, _) | Read(a, _) | Write(a, _)) => a,
        Some(Commit(a) | Abort(a) | Quiet(a, _)) => a,
        None => 0,
    }
}

// The place of the sets of the instrument that a request asks for, from its second number, any number that there is a place for; 0 where it has none.
pub fn instrument_of(asked: Option<Request>) -> usize
    ensures { result ≡ second_of asked % 128 }
{
    match asked {
        Some(OpenSub(_, i) | Read(_, i) | Write(_, i) | Quiet(_, i)) => (i % 128) as usize,
        Some(OpenTop(_) | Commit(_) | Abort(_)) | None => 0,
    }
}

// The offending number of a request that is refused for what a number of it is: of two that are too high the first.
pub(crate) fn offending(asked: Option<Request>, refusal: Refusal) -> u32
    ensures { result ≡ offending_in (code_of asked) (first_of asked) (second_of asked) (refusal_number refusal) }
{
    match (asked, refusal) {
        (Some(OpenSub(n, p)), Refusal::NoSuchAction) => if n < 64 { p } else { n },
        (Some(OpenSub(_, p)), Refusal::NotRunning) => p,
        (Some(Read(_, i) | Write(_, i) | Quiet(_, i)), Refusal::NoSuchInstrument) => i,
        _ => first_number(asked),
    }
}
