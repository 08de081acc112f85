// Drawn lists.
use lists::Request;
use marks::codes::{ABORT, COMMIT, OPEN_SUB, OPEN_TOP, QUIET, READ, WRITE};
use trials::draw::{Draws, far, near_or_far};

// A request record with 99 in its answer's place.
pub(crate) fn request(kind: u8, x: u32, y: u32) -> Request {
    Request {
        kind,
        x,
        y,
        answer: 99,
    }
}

// A number below the bound, or in one case of 24 one that may be anywhere.
fn near(x: u64, below: u32) -> u32 {
    near_or_far(x, below, x / 64 % 24 == 0)
}

// Which kind a drawn number stands for: in sixteen, 2 open top, 3 open sub, 3 read, 3 write, 1 commit, 1 abort, 2 quiet, and 1 any kind, most of them no request's.
fn kind_of(x: u64) -> u8 {
    match x % 16 {
        0 | 1 => OPEN_TOP,
        2..=4 => OPEN_SUB,
        5..=7 => READ,
        8..=10 => WRITE,
        11 => COMMIT,
        12 => ABORT,
        13 | 14 => QUIET,
        _ => (x / 16 % 256) as u8,
    }
}

// The second number of a kind: an action for open sub, an instrument for read, write and quiet, and a spare one of any size for the others.
fn second(kind: u8, x: u64) -> u32 {
    match kind {
        OPEN_SUB => near(x, 5),
        READ | WRITE | QUIET => near(x, 3),
        _ => far(x),
    }
}

// A list's next request.
fn drawn(draws: &mut Draws) -> Request {
    let kind = kind_of(draws.next());
    let x = near(draws.next(), 5);
    let y = second(kind, draws.next());
    request(kind, x, y)
}

// The next list.
pub(crate) fn drawn_list(draws: &mut Draws) -> [Request; 32] {
    let mut list = [request(0, 0, 0); 32];
    for q in &mut list {
        *q = drawn(draws);
    }
    list
}
