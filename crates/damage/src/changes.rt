// Texts with one byte changed: each of 29 values at every place, and of the longest text at every 41st, which are places of every kind in both
// frames. A line for each text.
use crate::benches;
use crate::tally::Tally;
use bench::Bench;
use std::io;
use trials::draw::Draws;

// The text with each value at one place: all digits, the bytes beside them, digits of the other case, 0a, 0d, a space, and the ends of the bytes.
fn at_place(tally: &mut Tally, text: &mut [u8], place: usize) {
    let Some(&byte) = text.get(place) else {
        return;
    };
    for value in *b"0123456789abcdef/:@AFG`g\n\r \x00\xff" {
        text[place] = value;
        tally.load(text);
    }
    text[place] = byte;
}

// The text of a bench, changed at each place that is a multiple of `stride`.
fn changes_of(rt: &impl Print, b: Bench, stride: usize, sum: u64) -> io::Result<u64> {
    let mut text = [0u8; 5312];
    let reply = saved::save(b, &mut text);
    let count = reply.count.min(5312);
    let mut tally = Tally::none_yet(sum);
    for place in (0..count).step_by(stride.max(1)) {
        at_place(&mut tally, &mut text[..count], place);
    }
    tally.show(rt, count as u64)?;
    Ok(tally.sum)
}

pub(crate) fn changes(rt: &impl Print, start: u64) -> io::Result<u64> {
    let mut draws = Draws { last: 1 };
    let walked = benches::walked(Bench::empty(), 100, &mut draws);
    let sum = changes_of(rt, benches::one_top(), 1, start)?;
    let sum = changes_of(rt, benches::middle_of_the_trace(), 1, sum)?;
    let sum = changes_of(rt, benches::both_ends(), 1, sum)?;
    let sum = changes_of(rt, benches::two_groups(), 1, sum)?;
    let sum = changes_of(rt, walked, 1, sum)?;
    changes_of(rt, benches::full(), 41, sum)
}
