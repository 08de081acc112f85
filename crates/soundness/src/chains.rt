// Rule 3's chains: going from parent to parent ends. Two quick passes, and climbs for the numbers that they don't tell of.
ghost use Rattle.std.specs.Prelude.{true, false, MatchOption, ◌≡◌, ℕ, ◌≤◌, ◌<◌, get_or};
ghost use Rattle.sets.specs.Sets.{member};
ghost use Rattle.rules.specs.Tests.{all, from};
ghost use Rattle.rules.specs.Sound.{reaches_top};
ghost use Rattle.tables.specs.Table.{parent_of};
ghost use Rattle.tables.specs.Tree.{up_of};
ghost use Rattle.tables.specs.Climbs.{parent_higher};
ghost use Rattle.views.specs.Soundness.{EndOutside, Climbed};

use crate::parents_lower;

// Whether every parent has a higher number than its child, as where numbers are taken from above. The number is counted, since the test compares it.
fn parents_higher(parents: &[u8; 64]) -> bool
    ensures { result ≡ all 64 (parent_higher parents.now) }
{
    let mut ok = true;
    for k in 0..64usize {
        ok = ok & ((parents[k] == 0) | (k + 1 < usize::from(parents[k])));
    }
    ok
}

// Whether a parent's byte, 64 at most, names one of these numbers. A remainder by 64 changes no number here, and spares the code a test of its range.
fn names_one(numbers: u64, byte: usize) -> bool
    requires { byte ≤ 64 }
    ensures { result ≡ from (parent_of byte) false (member numbers) }
{
    byte != 0 && sets::member(numbers, (byte - 1) % 64)
}

// Of the numbers whose chains are not yet known to end, those that are left without the least and those above it, up to one that has no parent or whose parent
// isn't among them. None where the climb comes back to a number that it has taken, which is a ring.
fn climb(parents: &[u8; 64], rest: u64) -> Option<u64>
    requires { (rest ≡ 0 → ⊥) × ((k : ℕ) → k < 64 → get_or parents.now k 0 ≤ 64) × EndOutside parents.now rest }
    ensures { MatchOption result (Climbed parents.now rest rest false) (λ left. Climbed parents.now rest left true) }
{
    let mut left = sets::without_least(rest);
    let mut up = usize::from(parents[sets::least(rest)]);
    while names_one(left, up) {
        let x = (up - 1) % 64;
        left = sets::without(left, x);
        up = usize::from(parents[x]);
    }
    if names_one(rest, up) {
        return None;
    }
    Some(left)
}

// From every number, going from parent to parent reaches a number with none within 63 steps. A climb stops at numbers known to end, so that no number is
// climbed from twice.
pub(crate) fn chains_end(parents: &[u8; 64]) -> bool
    requires { (k : ℕ) → k < 64 → get_or parents.now k 0 ≤ 64 }
    ensures { result ≡ all 64 (reaches_top 63 (up_of parents.now)) }
{
    if parents_lower(parents) {
        return true;
    }
    if parents_higher(parents) {
        return true;
    }
    let mut rest = u64::MAX;
    while rest != 0 {
        let Some(left) = climb(parents, rest) else {
            return false;
        };
        rest = left;
    }
    true
}
