// Calls that are made again where they only were interrupted or would have blocked.
ghost use Rattle.std.specs.Prelude.{IfOk, ◌≤◌};

use std::io::{Error, ErrorKind, Result, Write};
use std::rt::Clock;
use std::thread;
use std::time::Duration;

// Makes a call that moves up to `most` bytes, and makes it again until it answers or fails for good. No more than those are counted.
pub fn patiently<R: Clock, F: FnMut() -> Result<usize>>(
    rt: &R,
    most: usize,
    mut call: F,
) -> Result<usize>
    requires { F.IsAlwaysCallable call }
    ensures { IfOk result (λ n. n ≤ most) }
{
    for _ in 0..u64::MAX {
        match call() {
            Ok(count) => return Ok(count.min(most)),
            Err(error) => again(rt, error)?,
        }
    }
    Err(Error::from(ErrorKind::Interrupted))
}

// After a call that failed: the error, unless it only was interrupted, or would have blocked, and then a millisecond has passed.
fn again<R: Clock>(rt: &R, error: Error) -> Result<()> {
    match error.kind() {
        ErrorKind::Interrupted => Ok(()),
        ErrorKind::WouldBlock => {
            thread::sleep(rt, Duration::from_millis(1));
            Ok(())
        }
        _ => Err(error),
    }
}

// A writer whose calls are made again.
#[derive(Drop)]
pub struct Patient<'a, R, W> {
    pub rt: &'a R,
    pub to: W,
}

impl<R: Clock, W: Write> Write for Patient<'_, R, W> {
    fn write(&mut self, bytes: &[u8]) -> Result<usize> {
        patiently(self.rt, bytes.len(), || self.to.write(bytes))
    }

    fn flush(&mut self) -> Result<()> {
        self.to.flush()
    }
}
