// How a program says that it has ended, and how it went. A program whose first argument is `--mark` writes one character to descriptor 3 as the last thing
// that it does. One that was not asked to writes none.
use crate::waits::Patient;
use crate::{Failure, unwritten};
use std::fs::{OpenFile, OpenOptions};
use std::io::{Eprint, ErrorKind, Write};
use std::rt::{Clock, Env, Files};
use std::{fs, io};

// The descriptor that takes the mark, and standard output, as files that can be opened again.
const MARKS: &str = "/dev/fd/3";

const OUTPUT: &str = "/dev/fd/1";

// How a program ended: the character that says so.
#[derive(Clone, Copy, Debug, PartialEq, Eq)]
pub enum Mark {
    // All was read and written.
    Done = b'0' as isize,
    // All was read and written, and the text was refused.
    Refused = b'1' as isize,
    // Something could not be read or written; a message has said what.
    Failed = b'3' as isize,
}

// Ends a program: what it wrote is held, and the mark is left.
pub fn end<R: Files + Env + Eprint + Clock>(rt: &R, went: Result<Mark, Failure>) {
    match went.and_then(|mark| hold(rt).map(|_| mark)) {
        Ok(mark) => leave(rt, mark),
        Err(_) => failed(rt),
    }
}

// Ends a program of which all was read and written.
pub fn done<R: Files + Env + Eprint + Clock>(rt: &R) {
    end(rt, Ok(Mark::Done));
}

// Ends one of which all was read and written, and the text was refused.
pub fn refused<R: Files + Env + Eprint + Clock>(rt: &R) {
    end(rt, Ok(Mark::Refused));
}

// Ends one that could not read or write something; a message has said what.
pub fn failed<R: Files + Env + Clock>(rt: &R) {
    leave(rt, Mark::Failed);
}

// Output counts as written once its file holds it, since some file systems fail only after the last write.
fn hold<R: Files + Eprint>(rt: &R) -> Result<(), Failure> {
    match settle(rt) {
        Err(error) if !is_moot(error.kind()) => Err(unwritten(rt, &error)),
        _ => Ok(()),
    }
}

// Has the system bring what was written into the file. Only a file keeps something back: a pipe or a terminal is not asked.
fn settle<R: Files>(rt: &R) -> io::Result<()> {
    if fs::metadata(rt, OUTPUT)?.is_file() {
        OpenOptions::new()
            .append(true)
            .open(rt, OUTPUT)?
            .sync_all()?;
    }
    Ok(())
}

// Whether an error only says that there is nothing to ask: standard output is not open and took nothing, the file may not be opened again, or it is of a
// kind that keeps nothing back.
fn is_moot(kind: ErrorKind) -> bool {
    matches!(
        kind,
        ErrorKind::NotFound
            | ErrorKind::PermissionDenied
            | ErrorKind::InvalidInput
            | ErrorKind::Unsupported
    )
}

// Writes the mark if it was asked for. Where descriptor 3 can't be opened to write, there is none. It is opened to read too, so that a named pipe that nobody
// reads keeps nobody waiting.
fn leave<R: Files + Env + Clock>(rt: &R, mark: Mark) {
    if !asked(rt) {
        return;
    }
    if let Ok(marks) = OpenOptions::new().read(true).append(true).open(rt, MARKS) {
        let _ = Patient { rt: rt, to: marks }.write_all(&[mark as u8]);
    }
}

// Whether the first argument is `--mark`.
fn asked<R: Env>(rt: &R) -> bool {
    let mut word = [0u8; 6];
    match rt.arg(1, &mut word) {
        Ok(count) => count == 6 && word == *b"--mark",
        Err(_) => false,
    }
}
