// Sessions of document 02's order 2, each from an empty bench: what an abort leaves draining, whom that keeps waiting, and how it ends.
use std::io;
use trials::session::session;

pub(crate) fn draining_sessions(rt: &impl Print) -> io::Result<()> {
    // The whole family drains under the aborted action, those in no set too, and all become free together. Quiet is said of the aborted action, not of a member,
    // and of an instrument where one of the group stands.
    session(rt, b"t1 s2,1 s3,1 w2,5 a1 t3 q2,5 q1,4 q1,5 t3")?;
    // A family in no set is free at once.
    session(rt, b"t1 s2,1 a1 t2 t1")?;
    // A drained child has left the tree: its parent's abort doesn't take it.
    session(rt, b"t1 s2,1 w2,5 a2 a1 t1 q2,5 t2")?;
    // Nor does its parent's commit.
    session(rt, b"t1 s2,1 w2,5 a2 c1 t2 q2,5 t2")?;
    // An ancestor waits too, though it owns the instrument itself.
    session(rt, b"t1 w1,5 s2,1 w2,5 a2 w1,5 q2,5 w1,5")?;
    // A draining reader keeps writers waiting, and no readers.
    session(rt, b"t1 r1,5 a1 t2 r2,5 w2,5")?;
    // Parents may have larger numbers than their children: 1, 9, 3 and 5, each under the one before, all drain under 1.
    session(rt, b"t1 s9,1 s3,9 s5,3 r5,7 a1 t3 q1,7 t9")?;
    // A child drains and then its parent, each in a group of its own at an instrument of its own: what ends the one leaves the other.
    session(
        rt,
        b"t1 s2,1 w2,5 a2 r1,6 a1 q1,5 q2,6 q1,6 t1 t2 w1,5 q2,5 w1,5",
    )?;
    // An instrument is quiet once, for both of its sets, and the number is free after the last.
    session(rt, b"t1 r1,5 w1,5 r1,127 a1 q1,5 q1,5 t1 q1,127 q1,127 t1")?;
    // A draining number gives 3 to an open, and 4 as a parent and by each request that has an acting number.
    session(rt, b"t1 s2,1 r2,5 a1 t2 s2,1 s3,1 r1,5 w2,5 c1 a2")?;
    // Numbers that run or are committed don't drain, though they stand in the sets.
    session(rt, b"t1 s2,1 w2,5 q2,5 c2 q2,5 q1,5")
}
