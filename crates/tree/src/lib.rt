// Going up the tree of actions from a number, on any bytes of parents and states. A climb stops at a number that has no parent, at a parent above 63, and
// after 64 steps, so that rings of parents end it too. Parents and states are lent as the two arrays that they are in a record: a struct of two references would be made anew at
// each call, from arrays that the callers change in between, and each clause would have to say at which moment it is meant.
#![tactic(auto)]

pub mod children;
pub mod each;

ghost use Rattle.std.specs.Prelude.{◌≡◌, MatchOption, ℕ, ◌%◌, ◌<◌};
ghost use Rattle.std.proofs.Math.Option.{none, some};
ghost use Rattle.sets.specs.Sets.{member};
ghost use Rattle.views.specs.Tree.{named, met_from};

// The number that a parent's byte names: the one below it, and nobody where it is 0 or names none of the 64 numbers.
#[inline(always)]
pub fn named(byte: u8) -> Option<usize>
    ensures { MatchOption result (named byte ≡ none) (λ p. (p < 64) × (named byte ≡ some p)) }
{
    if byte == 0 || 64 < byte {
        return None;
    }
    Some(usize::from(byte) - 1)
}

// The asker and its ancestors, as a set. The asker is the number's remainder by 64.
pub fn line_of(parents: &[u8; 64], a: usize) -> u64
    ensures { (k : ℕ) → member result k ≡ met_from parents.now (a % 64) k }
{
    let mut line = 0u64;
    let mut x = a % 64;
    for _ in 0..65usize {
        line = sets::with(line, x);
        let Some(up) = named(parents[x]) else {
            return line;
        };
        x = up;
    }
    line
}
