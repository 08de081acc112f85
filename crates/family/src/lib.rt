// The family of an action, on any bytes of parents: itself and its descendants, in one set.
#![tactic(auto)]

ghost use Rattle.std.specs.Prelude.{◌≡◌, Bool, true, ◌&&◌, cond, ℕ, ◌+◌, ◌%◌, ◌≤◌, ◌<◌, leb, ltb, get_or};
ghost use Rattle.rules.specs.Tests.{all};
ghost use Rattle.sets.specs.Sets.{member};
ghost use Rattle.views.specs.Tree.{known_up};
ghost use Rattle.tables.specs.Families.{parent_in};
ghost use Rattle.views.specs.Families.{adopted};
ghost use Rattle.views.specs.Reach.{descends_known, GatheredTo};
ghost use Rattle.tables.specs.Reach.{Sorted, Met};

use soundness::{parents_lower, upper_child};
use tree::children::has_child;
use tree::named;

// 1 where the number that a parent's byte names is in the set, else 0. A bit and no flag: it is shifted to its place without a branch, since nobody
// can guess whose child comes next.
fn parent_in(set: u64, up: u8) -> u64
    requires { up ≤ 64 }
    ensures { result ≡ cond (parent_in set up) 1 0 }
{
    let ahead = usize::from(up) + 63;
    (set >> (ahead % 64)) & ((ahead / 64) as u64)
}

// The set with k where the number that k's parent byte names is in it.
fn adopting(set: u64, k: usize, up: u8) -> u64
    requires { (k < 64) × (up ≤ 64) }
    ensures { result ≡ adopted set k up }
{
    set | (parent_in(set, up) << (k % 64))
}

// The set with the children among 32 numbers, and with the children that those bring in on the way. The numbers are counted, since each is shifted to its place in the set.
fn adopting_half(parents: &[u8; 64], set: u64, from: usize) -> u64
    requires { (from ≤ 32) × (all 64 (λ k. leb (get_or parents.now k 0) k) ≡ true) }
    ensures { (a : ℕ) → GatheredTo parents.now a set from → GatheredTo parents.now a result (from + 32) }
{
    let mut grown = set;
    for k in from..from + 32 {
        grown = adopting(grown, k, parents[k]);
    }
    grown
}

// The family of a in one pass, where every parent has a lower number than its child.
fn in_one_pass(parents: &[u8; 64], a: usize) -> u64
    requires { (a < 64) × (all 64 (λ k. leb (get_or parents.now k 0) k) ≡ true) }
    ensures { GatheredTo parents.now a result 64 }
{
    let lower = adopting_half(parents, sets::with(0, a), 0);
    if upper_child(parents) {
        return adopting_half(parents, lower, 32);
    }
    lower
}

// The numbers met going up from k, until one is inside, is outside, has no parent or was met before; joined to those outside. Each number is the parent of the last,
// so there is no list to go through.
fn way_up(parents: &[u8; 64], inside: u64, outside: u64, k: usize) -> u64
    requires { k < 64 }
    ensures { (hit : ℕ → Bool) → Sorted hit (known_up parents.now) inside outside →
        Met hit (known_up parents.now) inside outside k result }
{
    let mut met = outside;
    let mut x = k;
    while !sets::member(met, x) {
        met = sets::with(met, x);
        if sets::member(inside, x) {
            return met;
        }
        let Some(up) = named(parents[x]) else {
            return met;
        };
        x = up;
    }
    met
}

// The family of a by climbs: what a climb meets is inside or outside from then on, so that no number is climbed from
// twice. More than the least leaves `rest` at each turn, so these are not the members of one set, taken one after the other.
fn by_climbs(parents: &[u8; 64], a: usize) -> u64
    requires { a < 64 }
    ensures { GatheredTo parents.now a result 64 }
{
    let mut inside = sets::with(0, a);
    let mut outside = 0u64;
    let mut rest = sets::difference(u64::MAX, inside);
    while rest != 0 {
        let k = sets::least(rest);
        let met = way_up(parents, inside, outside, k);
        rest = sets::difference(rest, met);
        if sets::meet(met, inside) {
            inside = sets::union(inside, sets::difference(met, outside));
        } else {
            outside = met;
        }
    }
    inside
}

// a and all its descendants, by the bytes that name one of the 64 numbers. The number's remainder by 64 is meant.
pub fn family_of(parents: &[u8; 64], a: usize) -> u64
    ensures { (k : ℕ) → member result k ≡ (ltb k 64 && descends_known parents.now (a % 64) k) }
{
    if !has_child(parents, (a % 64) as u8 + 1) {
        return sets::with(0, a % 64);
    }
    if parents_lower(parents) {
        return in_one_pass(parents, a % 64);
    }
    by_climbs(parents, a % 64)
}
