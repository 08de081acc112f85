// Commit and abort, with the families and the places that the index has.
ghost use Rattle.std.specs.Prelude.{◌≡◌, ◌%◌};
ghost use Rattle.marks.specs.Answers.{answer_number};
ghost use Rattle.steps.specs.Arrays.{lent};
ghost use Rattle.index.specs.Tables.{table};
ghost use Rattle.index.specs.Kept.{busy_by, stopped, left_parent, aborted_by, aborted_index, committed_by, EndKept};

use crate::Index;
use crate::kept_family::{family_of, family_of_top};
use crate::places::{leave_places, places_of, still_in};
use marks::answers::Answer;
use marks::states::{COMMITTED, FREE};
use rows::{ACTIONS, abort_row, commit_row};
use steps::clear::put_bytes;
use steps::draining::aborted_byte;

impl Index {
    // Who has gone runs no more, nor does x.
    fn stop(&mut self, gone: u64, x: u32)
        ensures { self.new ≡ stopped gone (x % 64) self.old }
    {
        let running = sets::difference(self.running(), sets::with(gone, (x % ACTIONS) as usize));
        self.put_running(running);
    }

    // And leaves the children of the parent of x, whose byte is `up`.
    fn leave_parent(&mut self, gone: u64, x: u32, up: usize)
        ensures { self.new ≡ left_parent gone x up self.old }
    {
        self.stop(gone, x);
        if (up != 0) & (up <= 64) {
            let children = sets::difference(self.children(up - 1), gone);
            self.put_children(up - 1, children);
        }
    }
}

// The family of x leaves the tree, and drains under x where one of it stands at one of its places. No set changes.
fn abort(
    parents: &mut [u8; 64],
    states: &mut [u8; 64],
    owners: &[u64; 256],
    index: &mut Index,
    gone: u64,
    x: u32,
)
    ensures { (lent parents.new states.new owners.now
        ≡ aborted_by gone x (table parents.old states.old owners.now index.old))
        × (index.new
        ≡ aborted_index gone x (table parents.old states.old owners.now index.old)) }
{
    let a = (x % ACTIONS) as usize;
    let up = usize::from(parents[a]);
    let still = still_in(owners, gone, places_of(index, gone));
    put_bytes(parents, gone, 0);
    put_bytes(states, gone, aborted_byte(still != 0, x));
    index.leave_parent(gone, x, up);
    index.put_group(a, gone);
    index.put_places(a, still);
}

// A top's family becomes free and leaves the sets of its places; a sub becomes committed.
fn commit<'a>(
    parents: &mut [u8; 64],
    states: &mut [u8; 64],
    owners: &mut [u64; 256],
    index: &'a Index,
    gone: u64,
    x: u32,
)
    ensures { lent parents.new states.new owners.new
        ≡ committed_by gone x (table parents.old states.old owners.old index.now) }
{
    let a = (x % ACTIONS) as usize;
    if parents[a] != 0 {
        states[a] = COMMITTED;
        return;
    }
    put_bytes(parents, gone, 0);
    put_bytes(states, gone, FREE);
    leave_places(owners, gone, places_of(index, gone));
}

// Commit, where `busy` says whether x has a running child. It takes nobody out of the children of x's parent: a top has no parent, and a sub stays, and only runs no more.
pub(crate) fn commit_indexed(
    parents: &mut [u8; 64],
    states: &mut [u8; 64],
    owners: &mut [u64; 256],
    index: &mut Index,
    busy: bool,
    x: u32,
) -> Answer
    ensures { EndKept 5 x «busy»
        (table parents.old states.old owners.old index.old) (answer_number result)
        (table parents.new states.new owners.new index.new) }
{
    let gone = family_of_top(parents, index, x);
    commit_row(states, busy, x)?;
    commit(parents, states, owners, index, gone, x);
    index.stop(gone, x);
    Ok(())
}

// Abort. Who is aborted leaves the children of its parent.
pub(crate) fn abort_indexed(
    parents: &mut [u8; 64],
    states: &mut [u8; 64],
    owners: &[u64; 256],
    index: &mut Index,
    x: u32,
) -> Answer
    ensures { EndKept 6 x (busy_by index.old x)
        (table parents.old states.old owners.now index.old) (answer_number result)
        (table parents.new states.new owners.now index.new) }
{
    let gone = family_of(index, x);
    abort_row(states, x)?;
    abort(parents, states, owners, index, gone, x);
    Ok(())
}
