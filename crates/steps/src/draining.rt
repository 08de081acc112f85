// Numbers that drain: whether they stand in a set, their byte, the group of a head, and quiet, by which the group leaves the sets of an instrument and becomes free where it
// stands in no set any more.
ghost use Rattle.std.specs.Prelude.{[], ◌≡◌, ℕ, ◌+◌, ◌≤◌, ◌<◌, eqb, get_or};
ghost use Rattle.sets.specs.Sets.{member};
ghost use Rattle.marks.specs.Answers.{answer_number};
ghost use Rattle.steps.specs.Arrays.{lent, stand_at};
ghost use Rattle.steps.specs.Changes.{stand_in, group_in, aborted_byte, released};
ghost use Rattle.steps.specs.Steps.{Quieted};

use crate::clear::put_bytes;
use crate::words::{leave, place, word_at};
use marks::answers::Answer;
use marks::states::{DRAINING, FREE};
use rows::ACTIONS;
use rows::quiet::quiet_row;

// Whether one of the numbers stands in one of these sets. One pass over the sets, without a branch.
pub fn stand(words: &[u64], numbers: u64) -> bool
    ensures { result ≡ stand_in words.now numbers }
{
    sets::meet(soundness::standing(words), numbers)
}

// The byte of numbers aborted with a: they drain under a where one of them stands in a set, and else become free.
pub fn aborted_byte(stands: bool, a: u32) -> u8
    ensures { result ≡ aborted_byte «stands» a }
{
    if stands {
        return DRAINING + (a % ACTIONS) as u8;
    }
    FREE
}

// Of the eight numbers from `first` on those that have this byte, each moved down so that the first is 0. From the last number on: doubling a set moves its numbers up by one
// and leaves room for the next. Without a branch, since nobody can guess who drains.
fn eight(states: &[u8; 64], first: usize, byte: u8) -> u64
    requires { first ≤ 56 }
    ensures { (result < 256) × ((j : ℕ) → j < 8 → member result j ≡ eqb (get_or states.now (first + j) 0) byte) }
{
    let mut part = 0u64;
    for k in 0..8usize {
        part = part + part + (states[first + 7 - k] == byte) as u64;
    }
    part
}

// The numbers that drain under a; its remainder by 64 is meant. Eight by eight: the compiler compares them all at once.
pub fn group_of(states: &[u8; 64], a: u32) -> u64
    ensures { result ≡ group_in states.now a }
{
    let byte = DRAINING + (a % ACTIONS) as u8;
    let mut group = 0u64;
    for k in 0..8usize {
        group = group * 256 + eight(states, 56 - 8 * k, byte);
    }
    group
}

// Whether one of the numbers stands in a set of instrument i.
pub fn stand_at(owners: &[u64], numbers: u64, i: u32) -> bool
    ensures { result ≡ stand_at owners.now numbers i }
{
    let readers = word_at(owners, place(false, i));
    let writers = word_at(owners, place(true, i));
    sets::meet(sets::union(readers, writers), numbers)
}

// The numbers leave the sets of instrument i, and become free where none of them is left in a set. Parents are not looked at: who drains has none.
fn release(states: &mut [u8; 64], owners: &mut [u64], numbers: u64, i: u32)
    ensures { lent [] states.new owners.new ≡ released numbers i (lent [] states.old owners.old) }
{
    leave(owners, place(false, i), numbers);
    leave(owners, place(true, i), numbers);
    if !stand(owners, numbers) {
        put_bytes(states, numbers, FREE);
    }
}

// Quiet.
pub fn quiet(states: &mut [u8; 64], owners: &mut [u64], a: u32, i: u32) -> Answer
    ensures { Quieted a i (lent [] states.old owners.old) (answer_number result)
        (lent [] states.new owners.new) }
{
    let group = group_of(states, a);
    quiet_row(states, stand_at(owners, group, i), a, i)?;
    release(states, owners, group, i);
    Ok(())
}
