// What the programs say on standard error. Where that can't be written nothing can be said.
ghost use Rattle.std.specs.Prelude.{◌≤◌};

use std::io::{Cursor, Eprint, Error, Write};
use std::str;

// Says what failed, and the error's text.
pub fn say_error<R: Eprint>(rt: &R, what: &str, error: &Error) {
    let mut buffer = [0u8; 256];
    let count = put_error(&mut buffer, error);
    let text = str::from_utf8(&buffer[..count]).unwrap_or("");
    let words = without_number(text);
    let _ = rt.eprintln(format_args!("dikothelm: {what}: {words}"));
}

// Says that a write took nothing, which is no error of the system's.
pub fn say_untaken<R: Eprint>(rt: &R) {
    let _ = rt.eprintln("dikothelm: the output could not be written: nothing was taken");
}

// Puts an error's text at the buffer's start, as much as it holds, and counts its bytes.
fn put_error(buffer: &mut [u8; 256], error: &Error) -> usize
    ensures { result ≤ 256 }
{
    let mut text = Cursor::new(buffer.as_mut_slice());
    let _ = write!(text, "{error}");
    usize::try_from(text.position()).unwrap_or(256).min(256)
}

// An error's text without the number that std puts after it.
fn without_number(text: &str) -> &str {
    match text.rsplit_once(" (os error ") {
        Some((words, _)) => words,
        None => text,
    }
}
