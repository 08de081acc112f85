// Owners that are held in a line, on any bytes of parents and states.
ghost use Rattle.std.specs.Prelude.{◌≡◌, Bool, ℕ, ◌<◌};
ghost use Rattle.sets.specs.Sets.{member};
ghost use Rattle.views.specs.Reach.{waits_for, all_held};
ghost use Rattle.tables.specs.Reach.{Sorted, Met};

use marks::states::RUNNING;
use tree::named;

// The numbers met going up from k, until one is cleared, runs, has no parent or was met before. Each number is the parent of the last, so there is no
// list to go through.
fn waiting<'a>(parents: &'a [u8; 64], states: &'a [u8; 64], cleared: u64, k: usize) -> u64
    requires { k < 64 }
    ensures { (hit : ℕ → Bool) → Sorted hit (waits_for parents.now states.now) cleared 0 →
        Met hit (waits_for parents.now states.now) cleared 0 k result }
{
    let mut met = 0u64;
    let mut x = k;
    while !sets::member(met, x) {
        met = sets::with(met, x);
        if sets::member(cleared, x) {
            return met;
        }
        if states[x] == RUNNING {
            return met;
        }
        let Some(up) = named(parents[x]) else {
            return met;
        };
        x = up;
    }
    met
}

// Whether going up from each owner one of the line is met before any other number that runs. What was met on the way is cleared, so that no number is
// climbed from twice. More than the least leaves `rest` at each turn, so these are not the members of one set, taken one after the other.
pub fn all_held<'a>(parents: &'a [u8; 64], states: &'a [u8; 64], line: u64, owners: u64) -> bool
    ensures { result ≡ all_held parents.now states.now (member line) owners }
{
    let mut cleared = line;
    let mut rest = sets::difference(owners, line);
    while rest != 0 {
        let k = sets::least(rest);
        let met = waiting(parents, states, cleared, k);
        if !sets::meet(met, cleared) {
            return false;
        }
        cleared = sets::union(cleared, met);
        rest = sets::difference(rest, met);
    }
    true
}
