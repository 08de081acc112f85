// No bench record and no number in a request goes without its answer: 22,000 drawn requests of drawn records. Each line is for 1,000 of them: the
// kind of records, how often the answers 0 to 7 and 10 were given, and a sum over every answer and every record handed back so far.
#![tactic(auto)]

mod forests;
mod kinds;
mod records;
mod requests;

use bench::Bench;
use kinds::Kind;
use std::io;
use trials::draw::Draws;
use trials::runs::Run;
use trials::show;
use trials::sums::{folded, folded_record};

// The place in which an answer is counted: 0 to 7 in their own, and 10 behind them.
fn place_of(answer: u8) -> usize {
    if answer == 10 {
        return 8;
    }
    usize::from(answer)
}

// One request, of the record that the one before left or of a new one.
fn step(run: &mut Run<9>, kind: Kind, turn: u64) {
    if kind.is_due(turn) {
        run.bench = records::record_of(kind, &mut run.draws);
    }
    let request = requests::drawn(&run.bench, kind, &mut run.draws);
    let reply = run.bench.request(request);
    run.bench = reply.bench;
    if reply.answer < 8 || reply.answer == 10 {
        run.count(place_of(reply.answer));
    }
    let sum = folded(run.sum, u64::from(reply.answer));
    run.sum = folded_record(
        folded(sum, u64::from(run.bench.is_sound())),
        false,
        run.bench,
    );
}

// 1,000 requests and their line.
fn block(rt: &impl Print, kind: Kind, run: &mut Run<9>) -> io::Result<()> {
    run.counts = [0; 9];
    for turn in 0..1000 {
        step(run, kind, turn);
    }
    show::line(rt, kind as u64, &run.counts, run.sum)?;
    Ok(())
}

fn main(rt: HostRuntime) -> io::Result<()> {
    let mut run = Run {
        bench: Bench::empty(),
        draws: Draws { last: 1 },
        counts: [0; 9],
        sum: 0,
    };
    let blocks = [
        (Kind::RandomBytes, 1u64),
        (Kind::FewNumbers, 4),
        (Kind::Forest, 5),
        (Kind::ChangedForest, 4),
        (Kind::NearWalk, 4),
        (Kind::FarWalk, 4),
    ];
    for (kind, count) in blocks {
        for _ in 0..count {
            block(&rt, kind, &mut run)?;
        }
    }
    Ok(())
}
