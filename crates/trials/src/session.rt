// Sessions as text: requests with one space between, each a letter and its numbers in decimal, with a comma between them. The letters are t open top, s open sub, r read,
// w write, c commit, a abort and q quiet. A write that fails ends the session with its error.
ghost use Rattle.std.specs.Prelude.{◌≡◌, IfOk, None};
ghost use Rattle.marks.specs.Requests.{meant};
ghost use Rattle.bench.specs.Record.{viewed};
ghost use Rattle.trials.specs.Session.{grown, begun, with_comma, with_digit, request_read, read_on, after_read, after_character, after_text};

use bench::Bench;
use marks::requests::Request;
use std::io;

// A number with a further digit, of which the last 32 bits are kept.
fn grown(number: u32, digit: u8) -> u32
    ensures { result ≡ grown number digit }
{
    ((u64::from(number) * 10 + u64::from(digit)) % 4294967296) as u32
}

// A request as far as it has been read: its letter, the number before the comma and, once the comma has been passed, the one after it.
#[derive(Clone, Copy)]
struct Reading {
    letter: u8,
    first: u32,
    second: Option<u32>,
}

impl Reading {
    // A letter has been read.
    fn begun(letter: u8) -> Reading
        ensures { result ≡ begun letter }
    {
        Reading {
            letter,
            first: 0,
            second: None,
        }
    }

    // After a comma.
    fn with_comma(self) -> Reading
        ensures { result ≡ with_comma self }
    {
        Reading {
            second: Some(self.second.unwrap_or(0)),
            ..self
        }
    }

    // After a further digit.
    fn with_digit(self, digit: u8) -> Reading
        ensures { result ≡ with_digit self digit }
    {
        match self.second {
            None => Reading {
                first: grown(self.first, digit),
                ..self
            },
            Some(second) => Reading {
                second: Some(grown(second, digit)),
                ..self
            },
        }
    }

    // The request that has been read.
    fn request(self) -> Request
        ensures { meant result ≡ request_read self }
    {
        let second = self.second.unwrap_or(0);
        match self.letter {
            b't' => Request::OpenTop(self.first),
            b's' => Request::OpenSub(self.first, second),
            b'r' => Request::Read(self.first, second),
            b'w' => Request::Write(self.first, second),
            b'c' => Request::Commit(self.first),
            b'a' => Request::Abort(self.first),
            _ => Request::Quiet(self.first, second),
        }
    }
}

// What has been read after a further character. A space or the end of a line begins anew.
fn read_on(reading: Option<Reading>, c: u8) -> Option<Reading>
    ensures { result ≡ read_on reading c }
{
    match c {
        0..=b' ' => None,
        b',' => Some(reading?.with_comma()),
        b':'..=255 => Some(Reading::begun(c)),
        _ => Some(reading?.with_digit(c % 16)),
    }
}

// The bench after the request that has been read, whose answer is written; where none has, the same bench.
fn after_read(rt: &impl Print, b: Bench, reading: Option<Reading>) -> io::Result<Bench>
    ensures { IfOk result (λ next. viewed next ≡ after_read (viewed b) reading) }
{
    let Some(reading) = reading else {
        return Ok(b);
    };
    let reply = b.request(reading.request());
    print!(rt; "{:02x}", reply.answer)?;
    Ok(reply.bench)
}

// The bench after a further character: a space or the end of a line ends the request, and is written after its answer.
fn after_character(rt: &impl Print, b: Bench, reading: Option<Reading>, c: u8) -> io::Result<Bench>
    ensures { IfOk result (λ next. viewed next ≡ after_character (viewed b) reading c) }
{
    if b' ' < c {
        return Ok(b);
    }
    let next = after_read(rt, b, reading)?;
    rt.write_all(&[c])?;
    Ok(next)
}

// Plays the requests of a text from a bench on, and writes the text with an answer in the place of each request.
pub fn played(rt: &impl Print, start: Bench, text: &[u8]) -> io::Result<Bench>
    ensures { IfOk result (λ last. viewed last ≡ after_text (viewed start) None text.now) }
{
    let mut b = start;
    let mut reading = None;
    for &c in text {
        b = after_character(rt, b, reading, c)?;
        reading = read_on(reading, c);
    }
    after_read(rt, b, reading)
}

// Plays a session from an empty bench, and writes it as a line.
pub fn session(rt: &impl Print, text: &[u8]) -> io::Result<()> {
    played(rt, Bench::empty(), text)?;
    println!(rt)
}
