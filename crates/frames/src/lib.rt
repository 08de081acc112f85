// What a line that has begun writes: its digits one by one, and the frame that they make.
#![tactic(auto)]

pub mod ends;

ghost use Rattle.std.specs.Prelude.{◌≡◌};
ghost use Rattle.lines.specs.Feeding.{count_after, value_after};
ghost use Rattle.frames.specs.Frames.{no_frame, short_of, long_of, held_frame};

use marks::codes;
use marks::requests::Request;

// A frame: what it asks, if anything, and its two numbers, which are told where it asks nothing too.
#[derive(Clone, Copy, Debug, PartialEq, Eq)]
pub struct Frame {
    pub asked: Option<Request>,
    pub x: u32,
    pub y: u32,
}

// Of a line of another number of digits.
fn no_frame() -> Frame
    ensures { result ≡ no_frame }
{
    Frame {
        asked: None,
        x: 0,
        y: 0,
    }
}

// The frame of four digits.
pub(crate) fn short_frame(code: u32, x: u32) -> Frame
    ensures { result ≡ short_of code x }
{
    let asked = match u8::try_from(code) {
        Ok(codes::OPEN_TOP) => Some(Request::OpenTop(x)),
        Ok(codes::COMMIT) => Some(Request::Commit(x)),
        Ok(codes::ABORT) => Some(Request::Abort(x)),
        _ => None,
    };
    Frame { asked, x, y: 0 }
}

// The frame of six digits.
pub(crate) fn long_frame(code: u32, x: u32, y: u32) -> Frame
    ensures { result ≡ long_of code x y }
{
    let asked = match u8::try_from(code) {
        Ok(codes::OPEN_SUB) => Some(Request::OpenSub(x, y)),
        Ok(codes::READ) => Some(Request::Read(x, y)),
        Ok(codes::WRITE) => Some(Request::Write(x, y)),
        Ok(codes::QUIET) => Some(Request::Quiet(x, y)),
        _ => None,
    };
    Frame { asked, x, y }
}

// A line that has begun: how many digits it has, and what they write. A count of 7 says that no request can come of it any more.
#[derive(Clone, Copy, Debug, PartialEq, Eq)]
pub struct Begun {
    pub count: u8,
    pub value: u32,
}

impl Begun {
    // The frame of the line as it stands.
    pub(crate) fn frame(self) -> Frame
        ensures { result ≡ held_frame self.count self.value }
    {
        let value = self.value;
        match self.count {
            4 => short_frame(value / 256, value % 256),
            6 => long_frame(value / 65536, value / 256 % 256, value % 256),
            _ => no_frame(),
        }
    }

    // The line with one more character.
    pub fn after(self, c: u8) -> Begun
        ensures { (result.count ≡ count_after self.count c) × (result.value ≡ value_after self.count self.value c) }
    {
        match digits::value(c) {
            Some(digit) if self.count < 6 => Begun {
                count: self.count + 1,
                value: self.value % 16777216 * 16 + u32::from(digit),
            },
            _ => Begun { count: 7, value: 0 },
        }
    }
}
