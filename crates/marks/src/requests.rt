// The requests, each with its numbers.
ghost use Rattle.std.specs.Prelude.{◌≡◌, eqb};
ghost use Rattle.rules.specs.Frames.{framed};
ghost use Rattle.marks.specs.Requests.{meant_by, code_of};

use crate::codes;

// The actions and the instrument of a request: the acting number first.
#[derive(Clone, Copy, Debug, PartialEq, Eq)]
pub enum Request {
    OpenTop(u32),
    OpenSub(u32, u32),
    Read(u32, u32),
    Write(u32, u32),
    Commit(u32),
    Abort(u32),
    Quiet(u32, u32),
}

impl Request {
    // The request of a frame's code and two numbers, a spare one ignored. A code that is no request's makes none.
    pub fn framed(code: u8, x: u32, y: u32) -> Option<Request>
        ensures { meant_by result ≡ framed code x y }
    {
        match code {
            codes::OPEN_TOP => Some(Request::OpenTop(x)),
            codes::OPEN_SUB => Some(Request::OpenSub(x, y)),
            codes::READ => Some(Request::Read(x, y)),
            codes::WRITE => Some(Request::Write(x, y)),
            codes::COMMIT => Some(Request::Commit(x)),
            codes::ABORT => Some(Request::Abort(x)),
            codes::QUIET => Some(Request::Quiet(x, y)),
            _ => None,
        }
    }
}

// Whether a request asks to write.
#[inline(always)]
pub fn writes(asked: Option<Request>) -> bool
    ensures { result ≡ eqb (code_of asked) 4 }
{
    matches!(asked, Some(Request::Write(_, _)))
}
