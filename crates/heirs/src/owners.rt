// Who owns a set of numbers by Moss's rules, on any bytes of parents and states.
ghost use Rattle.std.specs.Prelude.{◌≡◌, MatchOption, ℕ, ◌<◌, eqb};
ghost use Rattle.std.proofs.Math.Option.{none, some};
ghost use Rattle.sets.specs.Sets.{member};
ghost use Rattle.tables.specs.Reach.{holds_for};
ghost use Rattle.views.specs.Owners.{conflicting};
ghost use Rattle.views.specs.Reach.{waits_for, owns_set};

use marks::states::{DRAINING, RUNNING};
use tree::named;

// The numbers in the sets of the modes that conflict with a read or a write.
pub fn conflicting(is_write: bool, readers: u64, writers: u64) -> u64
    ensures { result ≡ conflicting is_write readers writers }
{
    if is_write {
        return sets::union(readers, writers);
    }
    writers
}

// Whose it is what number k stands in: its own where it runs, its head's where it drains. 64 or more where it is nobody's, and no
// option: `sets::with` leaves out what is above 63, so that the loop has no branch.
fn holder(states: &[u8; 64], k: usize) -> usize
    requires { k < 64 }
    ensures { (h : ℕ) → h < 64 → holds_for states.now h k ≡ eqb result h }
{
    let state = states[k];
    if state == RUNNING {
        return k;
    }
    if state < DRAINING {
        return 64;
    }
    usize::from(state - DRAINING)
}

// The number that number k waits for: its parent, and nobody where it runs or its parent's byte names none of the 64 numbers.
fn waits_for<'a>(parents: &'a [u8; 64], states: &'a [u8; 64], k: usize) -> Option<usize>
    requires { k < 64 }
    ensures { MatchOption result (waits_for parents.now states.now k ≡ none) (λ p. (p < 64) × (waits_for parents.now states.now k ≡ some p)) }
{
    if states[k] == RUNNING {
        return None;
    }
    named(parents[k])
}

// The owners of a set of numbers: their heirs, as a set. No number is passed twice. The parents of those passed come into `rest`, so these are not the members of one
// set, taken one after the other.
pub fn owners_of<'a>(parents: &'a [u8; 64], states: &'a [u8; 64], set: u64) -> u64
    ensures { (h : ℕ) → h < 64 → member result h ≡ owns_set parents.now states.now set h }
{
    let mut owners = 0u64;
    let mut passed = 0u64;
    let mut rest = set;
    while rest != 0 {
        let k = sets::least(rest);
        passed = sets::with(passed, k);
        owners = sets::with(owners, holder(states, k));
        if let Some(up) = waits_for(parents, states, k) {
            rest = sets::with(rest, up);
        }
        rest = sets::difference(rest, passed);
    }
    owners
}
