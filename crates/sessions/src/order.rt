// Where several answers apply, the order 1, 2, 3, 4, 5, 6 decides, and for quiet 1, 2, 10. 7 before all others is shown by the unsound records. Two pairs
// never apply together on a sound record: 4 and 5, since a running child's parent runs, and 2 and 6, since an instrument above 127 has no sets.
use std::io;
use trials::session::session;

pub(crate) fn order_of_answers(rt: &impl Print) -> io::Result<()> {
    // A number above 63 on an instrument above 127.
    session(rt, b"r64,128 w64,128")?;
    // A number in use under a number above 63.
    session(rt, b"t1 s1,64")?;
    // A number above 63 under a free one, and a free one under a number above 63.
    session(rt, b"s64,5 s5,64")?;
    // A free number on an instrument above 127.
    session(rt, b"r0,128 w0,128")?;
    // A number with a running child on an instrument above 127.
    session(rt, b"t1 s2,1 r1,128 w1,128")?;
    // A number in use under a free one, then under a committed one.
    session(rt, b"t1 s1,5 s2,1 c2 s1,2")?;
    // A committed and a free number where another top has written.
    session(rt, b"t1 s2,1 c2 t9 w9,5 r2,5 w2,5 r3,5 w3,5")?;
    // A number with a running child where another top has written.
    session(rt, b"t1 s2,1 t9 w9,5 r1,5 w1,5")?;
    // 4 by each request that has an acting number, committed and then free.
    session(rt, b"t1 s2,1 c2 s3,2 r2,5 w2,5 c2 a2 s3,8 r8,5 w8,5 c8 a8")?;
    // Quiet: a free number; one above 63, on an instrument above 127 and on another; and a free number on an instrument above 127.
    session(rt, b"q0,0 q64,128 q64,0 q0,128")
}
