// The saved form on both sides of its edges: save into buffers that are just long enough and just too short, load of texts with one byte changed,
// and load of 104,000 texts of drawn benches with drawn damage.
#![tactic(auto)]

mod benches;
mod changes;
mod draw;
mod edges;
mod tally;
mod texts;

use bench::Bench;
use std::io;
use tally::Tally;
use trials::draw::Draws;

// The text of a bench with damage, 20 times, each loaded.
fn load_twenty(b: Bench, tally: &mut Tally, draws: &mut Draws) {
    let text = texts::text_of(b);
    for _ in 0..20 {
        let damaged = texts::damaged(text.as_slice(), draws);
        tally.load(damaged.as_slice());
    }
}

// Texts of 200 benches on walks from an empty bench, 50 on each, two requests from one to the next, and their line.
fn block(rt: &impl Print, number: u64, sum: u64, draws: &mut Draws) -> io::Result<u64> {
    let mut tally = Tally::none_yet(sum);
    for _ in 0..4 {
        let mut b = Bench::empty();
        for _ in 0..50 {
            b = benches::walked(b, 2, draws);
            load_twenty(b, &mut tally, draws);
        }
    }
    tally.show(rt, number)?;
    Ok(tally.sum)
}

fn main(rt: HostRuntime) -> io::Result<()> {
    edges::edges(&rt)?;
    let mut sum = changes::changes(&rt, 0)?;
    let mut draws = Draws { last: 1 };
    for number in 1..27u64 {
        sum = block(&rt, number, sum, &mut draws)?;
    }
    Ok(())
}
