// Runs of drawn requests: where one stands, and the line that it writes.
ghost use Rattle.std.specs.Prelude.{◌≡◌};
ghost use Rattle.trials.specs.Runs.{with_one_more};

use crate::draw::Draws;
use bench::Bench;

// The record that the last request left, the drawn numbers, how often each of N answers was given, and the sum.
#[derive(Clone, Copy)]
pub struct Run<const N: usize> {
    pub bench: Bench,
    pub draws: Draws,
    pub counts: [u64; N],
    pub sum: u64,
}

impl<const N: usize> Run<N> {
    // One more of the answer that is counted in this place, if it is one.
    pub fn count(&mut self, place: usize)
        ensures { self.new.counts ≡ with_one_more self.old.counts place }
    {
        if place < N {
            self.counts[place] = self.counts[place].wrapping_add(1);
        }
    }
}
