// Who stands in sets: nobody who is free, and one number of each group that drains, whose head drains under itself.
ghost use Rattle.std.specs.Prelude.{◌≡◌, ◌&&◌, ◌||◌, ℕ, ◌-◌, ◌<◌, eqb, leb, get_or};
ghost use Rattle.sets.specs.Sets.{member};
ghost use Rattle.rules.specs.Tests.{all};
ghost use Rattle.tables.specs.Owners.{of_members};
ghost use Rattle.tables.specs.Soundness.{stands_with, drain_fits};
ghost use Rattle.tables.specs.Tree.{in_use};

use marks::states::{COMMITTED, FREE};
use sets::Members;

// Whether no byte is one of a number that drains.
fn nobody_drains(states: &[u8; 64]) -> bool
    ensures { result ≡ all 64 (λ k. leb (get_or states.now k 0) 2) }
{
    states
        .iter()
        .fold(true, |ok, state| ok & (*state <= COMMITTED))
}

// Whether none of the numbers is free. As a loop over the members it costs an instruction more for each: the set gets smaller before the test and not after it.
fn none_free(states: &[u8; 64], numbers: u64) -> bool
    ensures { result ≡ of_members 64 numbers (in_use states.now) }
{
    let mut rest = numbers;
    while rest != 0 {
        let k = sets::least(rest);
        if states[k] == FREE {
            return false;
        }
        rest = sets::without_least(rest);
    }
    true
}

// For each byte of a state 0 where one of the numbers has it, and else 1. Bytes and no flags: they are looked up and joined without a branch.
fn missing(states: &[u8; 64], numbers: u64) -> [u8; 67]
    requires { (k : ℕ) → k < 64 → get_or states.now k 0 < 67 }
    ensures { (s : ℕ) → s < 67 → eqb (get_or result s 0) 0 ≡ stands_with 64 states.now (member numbers) s }
{
    let mut table = [1u8; 67];
    for k in Members(numbers) {
        table[usize::from(states[k])] = 0;
    }
    table
}

// For each byte of a state 0 where a number may have it: it is of one that doesn't drain, or its head is in that state too, and the byte isn't missing among the
// numbers that stand in sets. The head's number is counted, since the test compares it.
fn misfits<'a>(states: &'a [u8; 64], missing: &'a [u8; 67]) -> [u8; 67]
    ensures { (s : ℕ) → s < 67 → eqb (get_or result s 0) 0
        ≡ (leb s 2 || (eqb (get_or states.now (s - 3) 0) s && eqb (get_or missing.now s 0) 0)) }
{
    let mut table = [0u8; 67];
    for h in 0..64usize {
        let s = h + 3;
        table[s] = ((usize::from(states[h]) != s) as u8) | missing[s];
    }
    table
}

// Whether the table has 0 for the byte of each number.
fn all_zero<'a>(states: &'a [u8; 64], table: &'a [u8; 67]) -> bool
    requires { (k : ℕ) → k < 64 → get_or states.now k 0 < 67 }
    ensures { result ≡ all 64 (λ k. eqb (get_or table.now (get_or states.now k 0) 0) 0) }
{
    let mut broken = 0u8;
    for state in states {
        broken = broken | table[usize::from(*state)];
    }
    broken == 0
}

// Whether none of `numbers`, which are those that stand in a set, is free, and the groups that drain are as they should be. Where nobody drains, one quick pass tells
// so, and else a table of the states' bytes: nobody can guess who drains.
pub(crate) fn stand_well(states: &[u8; 64], numbers: u64) -> bool
    requires { (k : ℕ) → k < 64 → get_or states.now k 0 < 67 }
    ensures { result ≡ (of_members 64 numbers (in_use states.now) && all 64 (drain_fits 64 states.now (member numbers))) }
{
    if nobody_drains(states) {
        return none_free(states, numbers);
    }
    let absent = missing(states, numbers);
    if absent[FREE as usize] == 0 {
        return false;
    }
    let table = misfits(states, &absent);
    all_zero(states, &table)
}
