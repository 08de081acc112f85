// Save on both sides of its edges. A line for each: the answer, how many bytes it says that it wrote, how many bytes of a buffer of 5,320, of which
// it was lent the first ones, are as they were, and the sum of the whole buffer.
use crate::benches;
use bench::Bench;
use saving::Saved;
use std::io;
use trials::show::{count, last_sum};
use trials::sums::folded_bytes;

// How many bytes have the value that the buffer was filled with, which no text has.
fn unchanged(buffer: &[u8]) -> usize {
    buffer.iter().filter(|byte| **byte == 170).count()
}

// Saves into the first bytes of a buffer, or into all of it where it has fewer.
fn save_into_first(b: Bench, buffer: &mut [u8], room: usize) -> Saved {
    let end = room.min(buffer.len());
    saved::save(b, &mut buffer[..end])
}

// Writes the line of a save.
fn show(rt: &impl Print, reply: Saved, buffer: &[u8]) -> io::Result<()> {
    print!(rt; "{:02x}", reply.answer)?;
    count(rt, reply.count as u64)?;
    count(rt, unchanged(buffer) as u64)?;
    last_sum(rt, folded_bytes(buffer))?;
    Ok(())
}

// A save into this many bytes.
fn save_into(rt: &impl Print, b: Bench, room: usize) -> io::Result<()> {
    let mut buffer = [170u8; 5320];
    let reply = save_into_first(b, &mut buffer, room);
    show(rt, reply, &buffer)
}

// The full bench with its top action committed, which no request does.
fn unsound() -> Bench {
    let mut b = benches::full();
    b.states[0] = 2;
    b
}

pub(crate) fn edges(rt: &impl Print) -> io::Result<()> {
    let full = benches::full();
    save_into(rt, full, 5311)?;
    save_into(rt, full, 5312)?;
    save_into(rt, full, 5320)?;
    save_into(rt, full, 0)?;
    save_into(rt, Bench::empty(), 0)?;
    save_into(rt, Bench::empty(), 5320)?;
    save_into(rt, benches::one_top(), 8)?;
    save_into(rt, benches::one_top(), 9)?;
    save_into(rt, benches::both_ends(), 109)?;
    save_into(rt, benches::both_ends(), 110)?;
    save_into(rt, unsound(), 5320)?;
    save_into(rt, unsound(), 5311)?;
    save_into(rt, unsound(), 0)
}
