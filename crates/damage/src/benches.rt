// The benches whose texts are saved and damaged, each reached by requests.
use bench::Bench;
use marks::requests::Request;
use trials::draw::Draws;

// The last number as a top action.
pub(crate) fn one_top() -> Bench {
    Bench::empty().open_top(63).bench
}

// Document 01's trace after its line 7: 2, committed under 1, wrote instrument 5, and 3 under 1 reads it.
pub(crate) fn middle_of_the_trace() -> Bench {
    let b = Bench::empty().open_top(1).bench;
    let b = b.open_sub(2, 1).bench;
    let b = b.open_sub(3, 1).bench;
    let b = b.write(2, 5).bench;
    let b = b.commit(2).bench;
    b.read(3, 5).bench
}

// The first and the last number, their locks on the first and the last instrument, and a number under each of them.
pub(crate) fn both_ends() -> Bench {
    let b = Bench::empty().open_top(0).bench;
    let b = b.write(0, 0).bench;
    let b = b.open_top(63).bench;
    let b = b.read(63, 127).bench;
    let b = b.write(63, 127).bench;
    let b = b.open_sub(1, 0).bench;
    b.open_sub(62, 63).bench
}

// Beside a running top two groups: 2 and 3, which took instruments 5 and 6, drain under 2, and 9 at instrument 6 under itself.
pub(crate) fn two_groups() -> Bench {
    let b = Bench::empty().open_top(1).bench;
    let b = b.open_sub(2, 1).bench;
    let b = b.open_sub(3, 2).bench;
    let b = b.write(3, 5).bench;
    let b = b.read(3, 6).bench;
    let b = b.abort(2).bench;
    let b = b.open_top(9).bench;
    let b = b.read(9, 6).bench;
    b.abort(9).bench
}

// All 64 numbers: 0 a top, and each other one, k + 1, under k / 2.
fn all_numbers() -> Bench {
    let mut b = Bench::empty().open_top(0).bench;
    for k in 0..63u32 {
        b = b.open_sub(k + 1, k / 2).bench;
    }
    b
}

// All 64 numbers in use and sets at all 128 instruments, read by the 32 numbers that have no children and every third written too; then of these numbers
// every fifth is committed, and every fifth drains.
pub(crate) fn full() -> Bench {
    let mut b = all_numbers();
    for i in 0..128u32 {
        b = b.read(i % 32 + 32, i).bench;
        if i % 3 == 0 {
            b = b.write(i % 32 + 32, i).bench;
        }
    }
    for n in 32..64u32 {
        if n % 5 == 0 {
            b = b.commit(n).bench;
        }
        if n % 5 == 1 {
            b = b.abort(n).bench;
        }
    }
    b
}

// One of 16 numbers, the last among them.
fn number_of(x: u64) -> u32 {
    (x % 16 * 4 + 3) as u32
}

// One of 8 instruments, the last among them.
fn instrument_of(x: u64) -> u32 {
    (x % 8 * 18 + 1) as u32
}

// A drawn request: in sixteen 2 open top, 4 open sub, 3 read, 3 write, 1 commit, 1 abort and 2 quiet.
fn drawn(draws: &mut Draws) -> Request {
    let choice = draws.next();
    let n = number_of(draws.next());
    let x = draws.next();
    let i = instrument_of(x);
    match choice % 16 {
        0 | 1 => Request::OpenTop(n),
        2..=5 => Request::OpenSub(n, number_of(x)),
        6..=8 => Request::Read(n, i),
        9..=11 => Request::Write(n, i),
        12 => Request::Commit(n),
        13 => Request::Abort(n),
        _ => Request::Quiet(n, i),
    }
}

// The bench after several drawn requests.
pub(crate) fn walked(start: Bench, requests: u64, draws: &mut Draws) -> Bench {
    let mut b = start;
    for _ in 0..requests {
        b = b.request(drawn(draws)).bench;
    }
    b
}
