// What a request costs through the public methods, its soundness test included: a thousand requests of one kind, for an instruction count. The first
// argument's first character says the kind; with a minus sign after it no request is made. benchmarks/cost runs both under callgrind and tells the difference.
#![tactic(auto)]

use bench::Bench;
use std::{env, io};
use trials::measures::{Kind, Measure};

// 24 actions, four deep, that hold 30 instruments: tops 0 and 1, each other number k under (k - 2) / 2.
fn busy() -> Bench {
    let mut b = Bench::empty().open_top(0).bench.open_top(1).bench;
    for k in 2..24u32 {
        b = b.open_sub(k, (k - 2) / 2).bench;
    }
    for i in 0..30u32 {
        b = b.write(12 + i % 12, i).bench;
    }
    b
}

// A chain of 64 actions with falling numbers, so that every parent has a higher number than its child.
fn deep() -> Bench {
    let mut b = Bench::empty().open_top(63).bench;
    for k in 0..63u32 {
        b = b.open_sub(62 - k, 63 - k).bench;
    }
    b
}

// The busy bench with its owners aborted: each of 12 to 23 drains at the two or three instruments that are it less 12, and so on in twelves.
fn draining() -> Bench {
    let mut b = busy();
    for k in 12..24u32 {
        b = b.abort(k).bench;
    }
    b
}

// The same with only the first instrument of each left.
fn nearly_quiet() -> Bench {
    let mut b = draining();
    for i in 12..30u32 {
        b = b.quiet(12 + i % 12, i).bench;
    }
    b
}

// The bench that a kind of request is asked of.
fn asked(kind: Kind) -> Bench {
    match kind {
        Kind::WriteInChain => deep(),
        Kind::Quiet => draining(),
        Kind::LastQuiet => nearly_quiet(),
        _ => busy(),
    }
}

// The answer to the n-th request of a kind, and a byte of the record handed back, so that it is made.
fn one(b: Bench, kind: Kind, n: u32) -> u32 {
    let reply = match kind {
        Kind::OpenTop => b.open_top(30 + n % 30),
        Kind::OpenSub => b.open_sub(30 + n % 30, 12),
        Kind::Read => b.read(12 + n % 12, n % 128),
        Kind::Write => b.write(12 + n % 12, n % 128),
        Kind::Commit => b.commit(12 + n % 12),
        Kind::Abort => b.abort(12 + n % 12),
        Kind::AbortOfSub => b.abort(2 + n % 4),
        Kind::AbortOfTop => b.abort(n % 2),
        Kind::Quiet | Kind::LastQuiet => b.quiet(12 + n % 12, n % 12),
        Kind::WriteInChain | Kind::Opening | Kind::Other => b.write(0, n % 128),
    };
    u32::from(reply.answer) * 4 + u32::from(reply.bench.states[3] % 4)
}

// That many requests of a kind, each of the same bench.
fn requests(b: Bench, kind: Kind, many: u32) -> u32 {
    (0..many).fold(0, |sum, n| (sum % 65536 + one(b, kind, n) % 1024) % 65536)
}

fn main(rt: HostRuntime) -> io::Result<()> {
    let first = env::args(&rt)?.nth(1);
    let measure = Measure::of(first.as_ref().map_or(b"", |argument| argument.as_bytes()));
    let many = if measure.made { 1000 } else { 0 };
    println!(rt; "{}", requests(asked(measure.kind), measure.kind, many))
}
