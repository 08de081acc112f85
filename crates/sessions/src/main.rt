// Sessions of documents 01 and 02, one line a session: the ones that 01 marks (P) first, in its order, then those of draining numbers, and further ones on
// both sides of each edge, and on the order of the answers. What becomes of the record is in the program `records`.
#![tactic(auto)]

mod draining;
mod edges;
mod marked;
mod order;

use std::io;

fn main(rt: HostRuntime) -> io::Result<()> {
    marked::marked_sessions(&rt)?;
    draining::draining_sessions(&rt)?;
    edges::edges(&rt)?;
    order::order_of_answers(&rt)
}
