// Lists of 32 requests in one call, as desks send them: 240 drawn lists, each on the record that the one before left or on one with a byte changed, which is often
// unsound. Each line is for 30 of them: how often the answers 0 to 10 stand in their places, and a sum over every list and every record handed back so far. Two lines
// before them have the answers to every kind from 0 to 31, on an empty bench and on an unsound one.
#![tactic(auto)]

mod draw;
mod sums;

use bench::Bench;
use draw::drawn_list;
use lists::Request;
use std::io;
use sums::folded_list;
use trials::draw::Draws;
use trials::runs::Run;
use trials::show;
use trials::sums::{folded, folded_record};

// The record that a call is made on: an empty one after an unsound one, and in one case of four with the state of one of the first five numbers changed.
fn due(b: Bench, x: u64) -> Bench {
    let mut next = if b.is_sound() { b } else { Bench::empty() };
    if x % 4 == 0 {
        next.states[(x / 4 % 5) as usize] = (x / 32 % 70) as u8;
    }
    next
}

// One call.
fn step(run: &mut Run<11>) {
    let x = run.draws.next();
    let list = drawn_list(&mut run.draws);
    let played = lists::play_array(due(run.bench, x), list);
    for q in played.list {
        run.count(usize::from(q.answer % 11));
    }
    run.bench = played.reply.bench;
    let sum = folded(run.sum, u64::from(played.reply.answer));
    let sum = folded(sum, u64::from(run.bench.is_sound()));
    run.sum = folded_record(folded_list(sum, &played.list), true, run.bench);
}

// 30 calls and their line, which begins with the number of the first.
fn block(rt: &impl Print, first: u64, run: &mut Run<11>) -> io::Result<()> {
    run.counts = [0; 11];
    for _ in 0..30 {
        step(run);
    }
    show::line(rt, first, &run.counts, run.sum)?;
    Ok(())
}

// Writes the answers to the kinds 0 to 31, each with the numbers 0 and 4,294,967,295, of which the second is far outside.
fn every_kind(rt: &impl Print, b: Bench) -> io::Result<()> {
    let mut list = [draw::request(0, 0, u32::MAX); 32];
    for (q, kind) in list.iter_mut().zip(0..32u8) {
        q.kind = kind;
    }
    let played = lists::play_array(b, list);
    for q in played.list {
        print!(rt; "{:02x}", q.answer)?;
    }
    println!(rt)
}

fn main(rt: HostRuntime) -> io::Result<()> {
    every_kind(&rt, Bench::empty())?;
    let mut unsound = Bench::empty();
    unsound.states[5] = 2;
    every_kind(&rt, unsound)?;
    let mut run = Run {
        bench: Bench::empty(),
        draws: Draws { last: 1 },
        counts: [0; 11],
        sum: 0,
    };
    for turn in 0..8u64 {
        block(&rt, turn * 30, &mut run)?;
    }
    Ok(())
}
