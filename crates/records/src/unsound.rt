// Records that aren't sound, each made from one that is by a change or two: every request answers 7 and hands back the same record. A line has
// the answers of the seven requests, then whether the record is sound, then whether all seven handed it back as it came.
use bench::Bench;
use std::io;
use trials::session::played;
use trials::show::{fact, last_fact};

// A sound record: 1 a running top; under it 2, which runs, and 3, which wrote instrument 6 and is committed; and 4, which wrote instrument 8 and drains.
pub(crate) fn busy() -> Bench {
    let b = Bench::empty().open_top(1).bench;
    let b = b.open_sub(2, 1).bench;
    let b = b.open_sub(3, 1).bench;
    let b = b.write(3, 6).bench;
    let b = b.commit(3).bench;
    let b = b.open_top(4).bench;
    let b = b.write(4, 8).bench;
    b.abort(4).bench
}

// A record with number n's state and parent as these bytes: draining under h is h + 3; a parent's is one more than its number, and 0 for none.
fn with_number(mut b: Bench, n: usize, state: u8, parent: u8) -> Bench {
    b.states[n % 64] = state;
    b.parents[n % 64] = parent;
    b
}

// With these sets of instrument i.
fn with_sets(mut b: Bench, i: usize, reads: u64, writes: u64) -> Bench {
    b.reads[i % 128] = reads;
    b.writes[i % 128] = writes;
    b
}

// Whether the record came back as it was from a request, whose answer is written.
pub(crate) fn kept(rt: &impl Print, b: Bench, text: &[u8]) -> io::Result<bool> {
    Ok(played(rt, b, text)? == b)
}

// Requests of the same record, with a stroke between, and what they show of it.
fn all_kept(rt: &impl Print, b: Bench, requests: &str) -> io::Result<()> {
    let mut same = true;
    for request in requests.split('/') {
        same &= kept(rt, b, request.as_bytes())?;
    }
    fact(rt, b.is_sound())?;
    last_fact(rt, same)?;
    Ok(())
}

// The seven requests, each of the same record. Where 1 and 2 are as in `busy`, one that drains under 4 stands in the sets of instrument 8, and the record is
// sound, all are accepted.
fn seven(rt: &impl Print, b: Bench) -> io::Result<()> {
    all_kept(rt, b, "t20/ s21,2/ r2,7/ w2,7/ c2/ a1/ q4,8")
}

// The seven requests with numbers that would get 1: 7 comes before it.
fn seven_far(rt: &impl Print, b: Bench) -> io::Result<()> {
    all_kept(
        rt,
        b,
        "t64/ s4294967295,64/ r64,128/ w4294967295,4294967295/ c64/ a4294967295/ q64,4294967295",
    )
}

// Rules 1 and 2, and bytes that mean nothing.
fn states_and_sets(rt: &impl Print, b: Bench) -> io::Result<()> {
    // States are 0 to 2, and 3 to 66 for draining under 0 to 63: the byte 67 would be under 64.
    seven(rt, with_number(b, 10, 67, 0))?;
    seven(rt, with_number(b, 10, 255, 0))?;
    // A parent is between 0 and 63: the byte 65 would be 64.
    seven(rt, with_number(b, 10, 1, 65))?;
    seven(rt, with_number(b, 10, 1, 255))?;
    // A top action is running.
    seven(rt, with_number(b, 10, 2, 0))?;
    // A free number has no parent.
    seven(rt, with_number(b, 10, 0, 2))?;
    // A free number stands in no set: 10 in the first read set, 63 in the last write set.
    seven(rt, with_sets(b, 0, 1024, 0))?;
    seven(rt, with_sets(b, 127, 0, 9223372036854775808))
}

// Rules 3 and 4.
fn parents(rt: &impl Print, b: Bench) -> io::Result<()> {
    // A parent is not free: 10, running and then committed, under the free 11.
    seven(rt, with_number(b, 10, 1, 12))?;
    seven(rt, with_number(b, 10, 2, 12))?;
    // From parent to parent a top is reached: not from 10 and 11, each the other's parent, running and then committed.
    seven(rt, with_number(with_number(b, 10, 1, 12), 11, 1, 11))?;
    seven(rt, with_number(with_number(b, 10, 2, 12), 11, 2, 11))?;
    // A top is not reached from 63, its own parent.
    seven(rt, with_number(b, 63, 1, 64))?;
    // A running action's parent runs: 10 runs under the committed 3.
    seven(rt, with_number(b, 10, 1, 4))
}

// Draining numbers.
fn draining(rt: &impl Print, b: Bench) -> io::Result<()> {
    // A head drains under itself: 10, which reads instrument 9, under the free 0, the running 1 and the committed 3; under 11, which drains under 4; and under 11,
    // which drains under 10.
    let reading = with_sets(b, 9, 1024, 0);
    seven(rt, with_number(reading, 10, 3, 0))?;
    seven(rt, with_number(reading, 10, 4, 0))?;
    seven(rt, with_number(reading, 10, 6, 0))?;
    seven(rt, with_number(with_number(reading, 10, 14, 0), 11, 7, 0))?;
    seven(rt, with_number(with_number(reading, 10, 14, 0), 11, 13, 0))?;
    // A group stands in some set: 10 under itself in none, and 4 no longer in the sets of instrument 8.
    seven(rt, with_number(b, 10, 13, 0))?;
    seven(rt, with_sets(b, 8, 0, 0))?;
    // A draining number has left the tree: 4 under the running 1.
    seven(rt, with_number(b, 4, 7, 2))?;
    // Nobody's parent drains: 10, running and then committed, under 4.
    seven(rt, with_number(b, 10, 1, 5))?;
    seven(rt, with_number(b, 10, 2, 5))?;
    // Of a group one number is enough, and it need not be the head: 10, which drains under 4, in its place. This record is sound.
    seven(rt, with_sets(with_number(b, 10, 7, 0), 8, 0, 1024))
}

pub(crate) fn unsound_records(rt: &impl Print) -> io::Result<()> {
    let b = busy();
    seven(rt, b)?;
    states_and_sets(rt, b)?;
    parents(rt, b)?;
    draining(rt, b)?;
    seven_far(rt, b)?;
    seven_far(rt, with_number(b, 10, 67, 0))
}
