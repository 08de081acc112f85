// Where lines end: a whole line that lies in the input is read at once, any other goes byte by byte.
ghost use Rattle.std.specs.Prelude.{◌≡◌, ◌+◌, ◌≤◌, ◌<◌, length};
ghost use Rattle.frames.specs.Ends.{pair_by, line_at, whole_line, begun_end, next_end};

use crate::{Begun, Frame, long_frame, short_frame};

// The end of a line: its frame, and how many bytes of the input it takes.
#[derive(Clone, Copy, Debug, PartialEq, Eq)]
pub struct End {
    pub frame: Frame,
    pub size: usize,
}

// What two characters write, where both are digits. Values are looked up: digits come at random, and a processor guesses no branch on them.
fn pair(values: &[u8; 256], high: u8, low: u8) -> Option<u32>
    ensures { result ≡ pair_by values.now high low }
{
    let h = values[usize::from(high)];
    if 16 <= h {
        return None;
    }
    let l = values[usize::from(low)];
    if 16 <= l {
        return None;
    }
    Some(u32::from(h) * 16 + u32::from(l))
}

// A whole line of four or six digits at a place with seven bytes or more.
fn line_at(values: &[u8; 256], input: &[u8], at: usize) -> Option<End>
    requires { at + 7 ≤ length input.now }
    ensures { result ≡ line_at values.now input.now at }
{
    let code = pair(values, input[at], input[at + 1])?;
    let x = pair(values, input[at + 2], input[at + 3])?;
    if input[at + 4] == 10 {
        return Some(End {
            frame: short_frame(code, x),
            size: 5,
        });
    }
    let y = pair(values, input[at + 4], input[at + 5])?;
    if input[at + 6] != 10 {
        return None;
    }
    Some(End {
        frame: long_frame(code, x, y),
        size: 7,
    })
}

// A whole line where none has begun. Any other line, or one near the input's end, is left to the way byte by byte.
fn whole_line(values: &[u8; 256], begun: Begun, input: &[u8], at: usize) -> Option<End>
    requires { at ≤ length input.now }
    ensures { result ≡ whole_line values.now begun.count begun.value input.now at }
{
    if begun.count != 0 || begun.value != 0 || input.len() - at < 7 {
        return None;
    }
    line_at(values, input, at)
}

// The end of the line that has begun, where the next byte is it.
fn begun_end(begun: Begun, input: &[u8], at: usize) -> Option<End>
    requires { at < length input.now }
    ensures { result ≡ begun_end begun.count begun.value input.now at }
{
    if input[at] != 10 {
        return None;
    }
    Some(End {
        frame: begun.frame(),
        size: 1,
    })
}

// The next end of a line: of a whole line that lies here, or of the line that has begun. `values` are the values of all bytes as digits.
pub fn next_end(values: &[u8; 256], begun: Begun, input: &[u8], at: usize) -> Option<End>
    ensures { result ≡ next_end values.now begun.count begun.value input.now at }
{
    if input.len() <= at {
        return None;
    }
    whole_line(values, begun, input, at).or_else(|| begun_end(begun, input, at))
}
