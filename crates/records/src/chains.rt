// A top is reached within 63 steps: a chain of all 64 numbers is as long as can be, and a ring of all 64 never gets there.
use crate::unsound::kept;
use bench::Bench;
use std::io;
use trials::session::played;
use trials::show::{fact, last_fact};

// All 64 numbers running, each under the next one up, and 63 a top.
fn longest_chain() -> Bench {
    let mut b = Bench {
        states: [1; 64],
        ..Bench::empty()
    };
    for (parent, above) in b.parents.iter_mut().zip(2..=64u8) {
        *parent = above;
    }
    b
}

// From 0 it is 63 steps to the top. 0 has no running child and every other number has one. All 64 drain under the top.
fn chain_of_64(rt: &impl Print) -> io::Result<()> {
    let b = longest_chain();
    let written = played(rt, b, b"w0,5")?;
    fact(rt, b.is_sound())?;
    let b = played(rt, written, b" w1,5 c1 c0 w1,5 a63")?;
    fact(rt, b.states[0] == 66 && b.states[63] == 66)?;
    let b = played(rt, b, b" q63,5")?;
    last_fact(rt, b == Bench::empty())?;
    Ok(())
}

// The same with 63 under 0.
fn ring_of_64(rt: &impl Print) -> io::Result<()> {
    let mut b = longest_chain();
    b.parents[63] = 1;
    let same = kept(rt, b, b"w0,5")?;
    fact(rt, b.is_sound())?;
    last_fact(rt, same)?;
    Ok(())
}

pub(crate) fn chains(rt: &impl Print) -> io::Result<()> {
    chain_of_64(rt)?;
    ring_of_64(rt)
}
