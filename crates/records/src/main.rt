// What becomes of the record, one line a session: records that aren't sound, the longest chains, refused requests, what accepted ones change, and what an
// abort leaves draining.
#![tactic(auto)]

mod chains;
mod changes;
mod draining;
mod unsound;

use std::io;

fn main(rt: HostRuntime) -> io::Result<()> {
    unsound::unsound_records(&rt)?;
    chains::chains(&rt)?;
    changes::changes(&rt)?;
    draining::draining(&rt)
}
