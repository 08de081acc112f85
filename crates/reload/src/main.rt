// Reads a saved text on standard input, writes the answer that loading it gets as two hexadecimal digits and 0a, and where it is accepted the text
// of the loaded bench saved again. Where a read fails nothing is written: what was not read whole is not called good.
#![tactic(auto)]

use marks::answers::{Refusal, number};
use std::rt::Runtime;
use streams::{Failure, Mark, read_full, write_whole};

// Writes the answer's line.
fn show<R: Runtime>(rt: &R, answer: u8) -> Result<(), Failure> {
    let line = [
        digits::character(answer / 16),
        digits::character(answer),
        b'\n',
    ];
    write_whole(rt, &line)
}

// A refused text: its answer alone.
fn refuse<R: Runtime>(rt: &R, answer: u8) -> Result<Mark, Failure> {
    show(rt, answer)?;
    Ok(Mark::Refused)
}

// Loads a text that was read whole, and tells what came of it.
fn reload<R: Runtime>(rt: &R, text: &[u8]) -> Result<Mark, Failure> {
    let loaded = saved::load(text);
    if loaded.answer != number(Ok(())) {
        return refuse(rt, loaded.answer);
    }
    let mut buffer = [0u8; 5312];
    let reply = saved::save(loaded.bench, &mut buffer);
    show(rt, number(Ok(())))?;
    write_whole(rt, &buffer[..reply.count])?;
    Ok(Mark::Done)
}

// Reads the text and reloads it. One byte more than the longest text has: input that fills it is longer than any text.
fn answer<R: Runtime>(rt: &R) -> Result<Mark, Failure> {
    let mut text = [0u8; 5313];
    let read = read_full(rt, &mut text)?;
    if read == text.len() {
        return refuse(rt, Refusal::Malformed as u8);
    }
    reload(rt, &text[..read])
}

fn main(rt: HostRuntime) {
    streams::end(&rt, answer(&rt));
}
