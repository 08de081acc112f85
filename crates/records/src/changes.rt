// What becomes of the record: refused requests hand it back as it came, accepted ones change what they say and nothing else.
use crate::unsound::{busy, kept};
use bench::Bench;
use std::io;
use trials::session::{played, session};
use trials::show::{fact, last_fact};

// The answers 1 to 6 and 10, each with whether the record came back as it was.
fn refused(rt: &impl Print) -> io::Result<()> {
    let b = busy();
    fact(rt, kept(rt, b, b"t64")?)?;
    fact(rt, kept(rt, b, b" w2,128")?)?;
    fact(rt, kept(rt, b, b" t3")?)?;
    fact(rt, kept(rt, b, b" s10,3")?)?;
    fact(rt, kept(rt, b, b" c1")?)?;
    fact(rt, kept(rt, b, b" q1,8")?)?;
    fact(rt, kept(rt, b, b" q4,6")?)?;
    let with_9 = played(rt, b, b" t9")?;
    fact(rt, kept(rt, with_9, b" r9,6")?)?;
    last_fact(rt, kept(rt, with_9, b" w9,6")?)?;
    Ok(())
}

// A read by a present write owner also enters the read set; asking again changes nothing further.
fn asking_again(rt: &impl Print) -> io::Result<()> {
    let written = played(rt, Bench::empty(), b"t1 w1,5")?;
    fact(rt, kept(rt, written, b" w1,5")?)?;
    let read = played(rt, written, b" r1,5")?;
    fact(rt, kept(rt, read, b" r1,5")?)?;
    last_fact(rt, read.reads[5] == 2 && read.writes[5] == 2)?;
    Ok(())
}

// A sub's commit changes no owner set; its number becomes committed.
fn commit_of_a_sub(rt: &impl Print) -> io::Result<()> {
    let b = played(rt, Bench::empty(), b"t1 s2,1 w2,5 r2,6 c2")?;
    fact(rt, b.writes[5] == 4 && b.reads[6] == 4)?;
    last_fact(rt, b.states[2] == 2 && b.parents[2] == 2)?;
    Ok(())
}

// A top's commit frees it and all its descendants, which leave all sets: what is left is an empty bench, and the next owner of a number has
// none of the locks of the one before.
fn commit_of_a_top(rt: &impl Print) -> io::Result<()> {
    let b = played(rt, Bench::empty(), b"t1 s2,1 s3,2 w3,5 r3,6 c3 c2 c1")?;
    fact(rt, b == Bench::empty())?;
    played(rt, b, b" t3 t9 w9,5 w9,6\n")?;
    Ok(())
}

// A sound record that no requests reach, two tops in one write set: the rule refuses each of them, until one is gone.
fn conflicting_owners(rt: &impl Print) -> io::Result<()> {
    let mut b = played(rt, Bench::empty(), b"t1 t9")?;
    b.writes[5] = 514;
    fact(rt, b.is_sound())?;
    played(rt, b, b" r1,5 w9,5 c1 w9,5\n")?;
    Ok(())
}

pub(crate) fn changes(rt: &impl Print) -> io::Result<()> {
    refused(rt)?;
    asking_again(rt)?;
    commit_of_a_sub(rt)?;
    commit_of_a_top(rt)?;
    // A parent may have many running children: all may read what none has written, and one may write once the others have committed.
    session(rt, b"t1 s2,1 s3,1 s4,1 r2,5 r3,5 r4,5 w2,5 c3 w2,5 c4 w2,5")?;
    // The heir is the nearest running one: what 4 wrote is 2's once 4 and 3 have committed, and 1's only after 2 has; so 5 waits for 2.
    session(
        rt,
        b"t1 s2,1 s3,2 s4,3 s5,1 w4,5 c4 r5,5 c3 r5,5 r2,5 c2 r5,5",
    )?;
    conflicting_owners(rt)
}
