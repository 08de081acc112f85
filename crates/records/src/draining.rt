// What an abort makes of the record, and what ends it: numbers that stand in sets drain and stay there, and quiet takes them out, instrument by instrument.
use bench::Bench;
use std::io;
use trials::session::played;
use trials::show::{fact, last_fact};

// A family in no set is free at once, and the record as it was before it was opened.
fn abort_of_a_family_in_no_set(rt: &impl Print) -> io::Result<()> {
    let before = played(rt, Bench::empty(), b"t1")?;
    let b = played(rt, before, b" s2,1 s3,2 c3 a2")?;
    fact(rt, b == before)?;
    let b = played(rt, b, b" a1")?;
    last_fact(rt, b == Bench::empty())?;
    Ok(())
}

// Of a family in some set all numbers drain under the aborted action, running and committed ones, and leave the tree; no set changes. When the instrument is
// quiet, the record is as it was before they were opened.
fn abort_of_a_family(rt: &impl Print) -> io::Result<()> {
    let before = played(rt, Bench::empty(), b"t1 w1,5")?;
    let b = played(rt, before, b" s2,1 s3,2 w3,5 c3 s4,2 s5,4 r5,5 a2")?;
    fact(rt, b.states[2..6] == [5; 4])?;
    fact(rt, b.parents[2..6] == [0; 4])?;
    fact(rt, b.reads[5] == 32 && b.writes[5] == 10)?;
    let b = played(rt, b, b" q2,5")?;
    fact(rt, b == before)?;
    let b = played(rt, b, b" a1 q1,5")?;
    last_fact(rt, b == Bench::empty())?;
    Ok(())
}

// Quiet takes the group out of the sets of its instrument: not out of another's, and no other group. The group becomes free with its last instrument.
fn quiet_of_one_group(rt: &impl Print) -> io::Result<()> {
    let b = played(rt, Bench::empty(), b"t1 t9 s2,1 r2,5 w2,6 r9,5 a1 a9 q1,5")?;
    fact(rt, b.reads[5] == 512 && b.writes[6] == 4)?;
    fact(rt, b.states[1..3] == [4, 4] && b.states[9] == 12)?;
    let b = played(rt, b, b" q1,6")?;
    fact(rt, b.reads[5] == 512 && b.writes[6] == 0)?;
    fact(rt, b.states[1..3] == [0, 0] && b.states[9] == 12)?;
    let b = played(rt, b, b" q9,5")?;
    last_fact(rt, b == Bench::empty())?;
    Ok(())
}

// A top's commit frees what is still its family; the sub that drained stays in its set.
fn commit_beside_a_group(rt: &impl Print) -> io::Result<()> {
    let b = played(rt, Bench::empty(), b"t1 s2,1 s3,1 w2,5 r3,6 a2 c3 c1")?;
    fact(rt, b.states[1..4] == [0, 5, 0])?;
    fact(rt, b.writes[5] == 4 && b.reads[6] == 0)?;
    let b = played(rt, b, b" q2,5")?;
    last_fact(rt, b == Bench::empty())?;
    Ok(())
}

pub(crate) fn draining(rt: &impl Print) -> io::Result<()> {
    abort_of_a_family_in_no_set(rt)?;
    abort_of_a_family(rt)?;
    quiet_of_one_group(rt)?;
    commit_beside_a_group(rt)
}
