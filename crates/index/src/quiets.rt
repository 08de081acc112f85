// Quiet, with the group and the places that the index has.
ghost use Rattle.std.specs.Prelude.{[], ◌≡◌};
ghost use Rattle.marks.specs.Answers.{answer_number};
ghost use Rattle.steps.specs.Changes.{left_instrument};
ghost use Rattle.index.specs.Tables.{table};
ghost use Rattle.index.specs.Places.{group_by};
ghost use Rattle.index.specs.Kept.{QuietKept};

use crate::places::still_in;
use crate::{Index, UNKNOWN};
use marks::answers::Answer;
use marks::states::FREE;
use rows::ACTIONS;
use rows::quiet::quiet_row;
use steps::clear::put_bytes;
use steps::draining::{group_of, stand_at};
use steps::words::{leave, place};

// The numbers that drain under a: those of the index, or where it doesn't know them those that the states tell.
fn known_group<'a>(states: &'a [u8; 64], index: &'a Index, a: u32) -> u64
    ensures { result ≡ group_by states.now index.now a }
{
    let kept = index.group((a % ACTIONS) as usize);
    if kept != UNKNOWN {
        return kept;
    }
    group_of(states, a)
}

// The numbers leave both sets of an instrument.
fn leave_instrument(owners: &mut [u64; 256], gone: u64, i: u32)
    ensures { owners.new ≡ left_instrument owners.old i gone }
{
    leave(owners, place(false, i), gone);
    leave(owners, place(true, i), gone);
}

// The group leaves both sets of the instrument, and becomes free where it stands at none of its places any more.
pub(crate) fn quiet_indexed(
    states: &mut [u8; 64],
    owners: &mut [u64; 256],
    index: &mut Index,
    x: u32,
    y: u32,
) -> Answer
    ensures { QuietKept x y (table [] states.old owners.old index.old) (answer_number result)
        (table [] states.new owners.new index.new) }
{
    let group = known_group(states, index, x);
    quiet_row(states, stand_at(owners, group, y), x, y)?;
    let a = (x % ACTIONS) as usize;
    leave_instrument(owners, group, y);
    let still = still_in(owners, group, index.places(a));
    index.put_group(a, group);
    index.put_places(a, still);
    if still == 0 {
        put_bytes(states, group, FREE);
    }
    Ok(())
}
