// Numbers in requests go up to 4,294,967,295: for each request the last number that names something, the first that doesn't, and the farthest.
use std::io;
use trials::session::session;

pub(crate) fn edges(rt: &impl Print) -> io::Result<()> {
    // Numbers of open top.
    session(rt, b"t0 t63 t64 t4294967295")?;
    // Numbers of open sub.
    session(rt, b"t0 s63,0 s64,0 s4294967295,0")?;
    // Parents of open sub.
    session(rt, b"t63 s1,63 s2,64 s2,4294967295")?;
    // Numbers of read.
    session(rt, b"t63 r63,0 r64,0 r4294967295,0")?;
    // Instruments of read.
    session(rt, b"t63 r63,127 r63,128 r63,4294967295")?;
    // Numbers of write.
    session(rt, b"t63 w63,0 w64,0 w4294967295,0")?;
    // Instruments of write.
    session(rt, b"t63 w63,127 w63,128 w63,4294967295")?;
    // Numbers of commit.
    session(rt, b"t63 c64 c4294967295 c63")?;
    // Numbers of abort.
    session(rt, b"t63 a64 a4294967295 a63")?;
    // Numbers of quiet.
    session(rt, b"t63 w63,0 a63 q64,0 q4294967295,0 q63,0")?;
    // Instruments of quiet.
    session(rt, b"t63 r63,127 a63 q63,128 q63,4294967295 q63,127")
}
