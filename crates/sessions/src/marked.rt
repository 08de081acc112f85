// The sessions that document 01 marks (P), in its order, with the answers that they have since order 2 of document 02, each from an empty bench.
use std::io;
use trials::session::session;

// All eleven, and how the whole trace ends.
pub(crate) fn marked_sessions(rt: &impl Print) -> io::Result<()> {
    // Free number 0: 4; instrument 128 comes before that: 2; number 64 before both: 1.
    session(rt, b"r0,0 r0,128 r64,128")?;
    // 63 is a number and 64 is none.
    session(rt, b"t63 t64")?;
    // 7 under 7: 4 while it is free, 3 while it runs.
    session(rt, b"s7,7 t7 s7,7")?;
    // Two tops read one instrument; then neither may write it.
    session(rt, b"t1 t9 r1,5 r9,5 w1,5")?;
    // 127 is an instrument and 128 is none.
    session(rt, b"t1 t9 w1,127 w9,127 w9,128")?;
    // The twelve lines of the section on trace lines. They leave 3 draining, and a second line shows that it drains at instrument 5 and nowhere else.
    session(
        rt,
        b"t1 s2,1 s3,1 w2,5 r3,5 c2 r3,5 w3,5 c1 a3 w1,5 c1\nt3 q3,4 q3,5 t3",
    )?;
    // What 2 wrote is its parent's once it commits, and so the nephew 4 may write it.
    session(rt, b"t1 s2,1 s3,1 s4,3 w2,5 w4,5 c2 w4,5")?;
    // With a running child, read and commit get 5 and abort is accepted.
    session(rt, b"t1 s2,1 r1,5 c1 a1")?;
    // What 1 wrote stays its own when 2, which wrote it too, aborts.
    session(rt, b"t1 w1,5 s2,1 w2,5 a2 t9 w9,5")?;
    // What the committed 3 wrote goes with its parent 2: 9 waits until that is quiet.
    session(rt, b"t1 s2,1 s3,2 w3,5 c3 a2 t9 w9,5 q2,5 w9,5")?;
    // A committed number is in use until its top commits.
    session(rt, b"t1 s2,1 c2 t2 c1 t2")
}
