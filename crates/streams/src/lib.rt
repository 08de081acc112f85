// Standard input and output for the programs. Input that ends is told apart from input that fails; a write is whole or failed; what failed is said on
// standard error; and a program that was asked to ends with a mark on descriptor 3, since its exit status is always 0. A call that a signal interrupts is
// made again; one that would block waits and is made again.
#![tactic(auto)]

mod marks;
mod messages;
mod waits;

ghost use Rattle.std.specs.Prelude.{◌≡◌};
ghost use Rattle.streams.specs.Reading.{Reads};
ghost use Rattle.streams.specs.declared.Failure.TheVariants.{Input as FailureInput};

pub use marks::{Mark, done, end, failed, refused};
use messages::{say_error, say_untaken};
use std::io::{Eprint, Error, ErrorKind, Input, Print, Read, Write, writer};
use std::rt::Clock;
use waits::{Patient, patiently};

// What failed. A message on standard error has said so.
#[derive(Clone, Copy, Debug, PartialEq, Eq)]
pub enum Failure {
    // A read, after so many bytes, which stand at the buffer's start.
    Input(usize),
    // A write, or the file that was written to.
    Output,
}

// One read of standard input into the buffer's start. A count of 0: the input has ended, or the buffer is empty.
pub fn read_some<R: Input + Eprint + Clock>(rt: &R, buffer: &mut [u8]) -> Result<usize, Failure>
    ensures { Reads result buffer.new }
{
    patiently(rt, buffer.len(), || rt.reader().read(buffer)).map_err(|error| unread(rt, &error))
}

// Says that a read failed, before which no byte came.
fn unread<R: Eprint>(rt: &R, error: &Error) -> Failure
    ensures { result ≡ FailureInput 0 }
{
    say_error(rt, "the input could not be read", error);
    Failure::Input(0)
}

// Reads standard input until the buffer is full, the input has ended or a read failed. What came before the end or a failure is counted, which std's
// `read_exact` does not.
pub fn read_full<R: Input + Eprint + Clock>(rt: &R, buffer: &mut [u8]) -> Result<usize, Failure>
    ensures { Reads result buffer.new }
{
    let mut filled = 0;
    while filled < buffer.len() {
        match read_some(rt, &mut buffer[filled..]) {
            Ok(0) => break,
            Ok(count) => filled += count,
            Err(_) => return Err(Failure::Input(filled)),
        }
    }
    Ok(filled)
}

// Writes all of the bytes to standard output, or says on standard error why it could not.
pub fn write_whole<R: Print + Eprint + Clock>(rt: &R, bytes: &[u8]) -> Result<(), Failure> {
    Patient {
        rt: rt,
        to: writer(rt),
    }
    .write_all(bytes)
    .map_err(|error| unwritten(rt, &error))
}

// Says that a write failed.
fn unwritten<R: Eprint>(rt: &R, error: &Error) -> Failure {
    if error.kind() == ErrorKind::WriteZero {
        say_untaken(rt);
    } else {
        say_error(rt, "the output could not be written", error);
    }
    Failure::Output
}
