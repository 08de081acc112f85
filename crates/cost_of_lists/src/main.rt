// What a request costs in a list, its soundness test included, for an instruction count: ten calls of a list whose first twelve places have requests of one kind, and
// whose others have a kind that is no request's. The first argument's first character says the kind; with a minus sign after it no call is made. benchmarks/cost
// runs them under callgrind. The kinds are those of `cost`, and so are the benches, which lists make.
#![tactic(auto)]

use bench::Bench;
use lists::Request;
use marks::codes::{ABORT, COMMIT, OPEN_SUB, OPEN_TOP, QUIET, READ, WRITE};
use std::ops::Range;
use std::{env, io};
use trials::measures::{Kind, Measure};

fn request(kind: u8, x: u32, y: u32) -> Request {
    Request {
        kind,
        x,
        y,
        answer: 0,
    }
}

// Tops 0 and 1, and each other number n under (n - 2) / 2.
fn opening(n: u32) -> Request {
    if n < 2 {
        return request(OPEN_TOP, n, 0);
    }
    request(OPEN_SUB, n % 24, (n - 2) / 2)
}

// The n-th request of a kind; for the kinds that are left, one that has a kind that is no request's.
fn nth(kind: Kind, n: u32) -> Request {
    match kind {
        Kind::Opening => opening(n),
        Kind::OpenTop => request(OPEN_TOP, 30 + n % 30, 0),
        Kind::OpenSub => request(OPEN_SUB, 30 + n % 30, 12),
        Kind::Read => request(READ, 12 + n % 12, n % 128),
        Kind::Write => request(WRITE, 12 + n % 12, n % 128),
        Kind::Commit => request(COMMIT, 12 + n % 12, 0),
        Kind::Abort => request(ABORT, 12 + n % 12, 0),
        Kind::AbortOfSub => request(ABORT, 2 + n % 4, 0),
        Kind::AbortOfTop => request(ABORT, n % 2, 0),
        Kind::Quiet | Kind::LastQuiet => request(QUIET, 12 + n % 12, n % 128),
        Kind::WriteInChain | Kind::Other => request(0, 0, 0),
    }
}

// A list that begins with the requests of a kind that have these numbers.
fn list_of(kind: Kind, numbers: Range<u32>) -> [Request; 32] {
    let mut list = [request(0, 0, 0); 32];
    for (q, n) in list.iter_mut().zip(numbers) {
        *q = nth(kind, n);
    }
    list
}

// The first four lists make the bench: 24 actions, four deep, that hold 30 instruments; for quiet the owners are aborted, and for quiet at the last instrument only the
// first instrument of each is left. Then the kind itself is asked.
fn list_at(kind: Kind, turn: u32) -> [Request; 32] {
    match (turn, kind) {
        (0, _) => list_of(Kind::Opening, 0..24),
        (1, _) => list_of(Kind::Write, 0..30),
        (2, Kind::Quiet | Kind::LastQuiet) => list_of(Kind::Abort, 0..12),
        (3, Kind::LastQuiet) => list_of(Kind::Quiet, 12..30),
        (2 | 3, _) => list_of(Kind::Other, 0..12),
        _ => list_of(kind, 0..12),
    }
}

// That many calls, each of the bench that the first four made: a sum of the twelfth answers and of a byte of each record handed back, so that both are made.
fn calls(kind: Kind, many: u32) -> u32 {
    let mut b = Bench::empty();
    let mut sum = 0u32;
    for turn in 0..many % 64 + 4 {
        let played = lists::play_array(b, list_at(kind, turn));
        let left = played.reply.bench;
        if turn < 4 {
            b = left;
        }
        sum = (sum % 65536 + u32::from(played.list[11].answer) * 4 + u32::from(left.states[3] % 4))
            % 65536;
    }
    sum
}

fn main(rt: HostRuntime) -> io::Result<()> {
    let first = env::args(&rt)?.nth(1);
    let measure = Measure::of(first.as_ref().map_or(b"", |argument| argument.as_bytes()));
    let many = if measure.made { 10 } else { 0 };
    println!(rt; "{}", calls(measure.kind, many))
}
