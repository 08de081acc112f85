// Of each number at once, on any bytes of parents and states: its children, its line, and whether it runs. The passes count the numbers, since each number enters a set or
// finds its place in another array.
ghost use Rattle.std.specs.Prelude.{◌≡◌, ℕ, suc, ◌<◌, eqb, length, get_or};
ghost use Rattle.sets.specs.Sets.{member};
ghost use Rattle.views.specs.Tree.{met_from};
ghost use Rattle.views.specs.Reach.{LinesMet};

use crate::{line_of, named};
use marks::states::RUNNING;

// The children of each number, from the parents' bytes.
pub fn children_in(parents: &[u8; 64]) -> [u64; 64]
    ensures { (length result ≡ 64) × ((p k : ℕ) → p < 64 → k < 64 → member (get_or result p 0) k ≡ eqb (get_or parents.now k 0) (suc p)) }
{
    let mut children = [0u64; 64];
    for k in 0..64 {
        if let Some(up) = named(parents[k]) {
            children[up] = sets::with(children[up], k);
        }
    }
    children
}

// The line of k: with that of its parent, where it was passed, and else by a climb.
fn next_line<'a>(parents: &'a [u8; 64], lines: &'a [u64; 64], k: usize) -> u64
    requires { (k < 64) × LinesMet parents.now lines.now k }
    ensures { (x : ℕ) → member result x ≡ met_from parents.now k x }
{
    match named(parents[k]) {
        Some(up) if up < k => sets::with(lines[up], k),
        _ => line_of(parents, k),
    }
}

// Each number with what is met going up from it.
pub fn lines_in(parents: &[u8; 64]) -> [u64; 64]
    ensures { (length result ≡ 64) × LinesMet parents.now result 64 }
{
    let mut lines = [0u64; 64];
    for k in 0..64 {
        lines[k] = next_line(parents, &lines, k);
    }
    lines
}

// The running numbers.
pub fn running_in(states: &[u8; 64]) -> u64
    ensures { (k : ℕ) → k < 64 → member result k ≡ eqb (get_or states.now k 0) 1 }
{
    let mut running = 0u64;
    for k in 0..64 {
        if states[k] == RUNNING {
            running = sets::with(running, k);
        }
    }
    running
}
