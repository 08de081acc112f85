// The soundness test: rules 1 to 4 of document 01 on the arrays of a record, and the groups that drain. The chains of parents, which can be the dearest, come last.
// A pass over the bytes joins the tests of all numbers and doesn't stop at the first that fails: without a branch, many numbers are tested at once.
#![tactic(auto)]

mod chains;
mod draining;

ghost use Rattle.std.specs.Prelude.{◌≡◌, ℕ, ◌≤◌, ◌<◌, leb, length, get_or};
ghost use Rattle.sets.specs.Sets.{member};
ghost use Rattle.rules.specs.Tests.{all, any};
ghost use Rattle.views.specs.Soundness.{bytes_fit, sound_with};
ghost use Rattle.tables.specs.Soundness.{forbids_of, forbidden_under, permitted, fit};
ghost use Rattle.views.specs.Families.{upper_child, NoParentsFrom};

use crate::chains::chains_end;
use crate::draining::stand_well;
use marks::states::{COMMITTED, RUNNING};

// The two bytes of one number by themselves: rules 1 and 2 but for the sets, that a parent's byte names a number of the table, and that a byte from 3 to 66, of one
// that drains, has no parent beside it.
fn byte_fits(p: u8, s: u8) -> bool
    ensures { result ≡ fit 64 p s }
{
    (s < 67)
        & (p <= 64)
        & ((p != 0) | (s != COMMITTED))
        & ((p == 0) | ((s == RUNNING) | (s == COMMITTED)))
}

// Whether the bytes of each number fit.
fn bytes_fit<'a>(parents: &'a [u8; 64], states: &'a [u8; 64]) -> bool
    ensures { result ≡ all 64 (bytes_fit parents.now states.now) }
{
    parents
        .iter()
        .zip(states)
        .fold(true, |ok, (p, s)| ok & byte_fits(*p, *s))
}

// What a number in state s forbids its children to be: 1 running, 2 committed, 3 both.
fn forbids(s: u8) -> u8
    ensures { result ≡ forbids_of s }
{
    if s == RUNNING {
        return 0;
    }
    if s != COMMITTED {
        return 3;
    }
    1
}

// What each parent's byte forbids. A table, so that what a parent forbids is looked up without a branch; a number's place in it is one above the number.
fn forbidden(states: &[u8; 64]) -> [u8; 65]
    ensures { (p : ℕ) → p < 65 → get_or result p 0 ≡ forbidden_under states.now p }
{
    let mut table = [0u8; 65];
    for k in 0..64usize {
        table[k + 1] = forbids(states[k]);
    }
    table
}

// Whether one of the upper 32 numbers has a parent.
pub fn upper_child(parents: &[u8; 64]) -> bool
    ensures { result ≡ upper_child parents.now }
{
    parents[32..]
        .iter()
        .fold(false, |found, parent| found | (*parent != 0))
}

// A number from which on no number has a parent: where only the lower half is used, half the work is left out.
fn end_of_children(parents: &[u8; 64]) -> usize
    ensures { (result ≤ 64) × NoParentsFrom parents.now result }
{
    if upper_child(parents) {
        return 64;
    }
    32
}

// Rule 4, and that no parent is free or drains. Numbers are counted up to the end of those that may have a parent.
fn parents_stand<'a>(parents: &'a [u8; 64], states: &'a [u8; 64]) -> bool
    requires { (k : ℕ) → k < 64 → get_or parents.now k 0 ≤ 64 }
    ensures { result ≡ all 64 (permitted parents.now states.now) }
{
    let table = forbidden(states);
    let end = end_of_children(parents);
    let mut broken = 0u8;
    for k in 0..end {
        broken = broken | (table[usize::from(parents[k])] & states[k]);
    }
    broken == 0
}

// Whether every parent has a lower number than its child, as where actions are opened in the order of their numbers. The number is
// counted, since the test compares it.
pub fn parents_lower(parents: &[u8; 64]) -> bool
    ensures { result ≡ all 64 (λ k. leb (get_or parents.now k 0) k) }
{
    let mut ok = true;
    for k in 0..64usize {
        ok = ok & (usize::from(parents[k]) <= k);
    }
    ok
}

// All numbers that stand in one of these sets, of any number of them.
pub fn standing(words: &[u64]) -> u64
    ensures { (k : ℕ) → member result k ≡ any (length words.now) (λ i. member (get_or words.now i 0) k) }
{
    words
        .iter()
        .fold(0, |numbers, word| sets::union(numbers, *word))
}

// Whether a record of these parents and states is sound, where `numbers` are those that stand in a set.
pub fn sound<'a>(parents: &'a [u8; 64], states: &'a [u8; 64], numbers: u64) -> bool
    ensures { result ≡ sound_with parents.now states.now numbers }
{
    if !bytes_fit(parents, states) {
        return false;
    }
    if !parents_stand(parents, states) {
        return false;
    }
    if !stand_well(states, numbers) {
        return false;
    }
    chains_end(parents)
}
