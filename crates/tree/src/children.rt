// Whether a number has a child, or a running one, on any bytes of parents and states. Both join the tests of all numbers and don't stop at the first
// that is one: without a branch, many numbers are tested at once. Two passes of a line each, and not one for any test: a closure would be longer than the pass.
ghost use Rattle.std.specs.Prelude.{◌≡◌, ◌&&◌, eqb, get_or};
ghost use Rattle.rules.specs.Tests.{any};

use marks::states::RUNNING;

// Whether a number whose parent's byte is `parent` runs.
pub fn running_child<'a>(parents: &'a [u8; 64], states: &'a [u8; 64], parent: u8) -> bool
    ensures { result ≡ any 64 (λ k. eqb (get_or states.now k 0) 1 && eqb (get_or parents.now k 0) parent) }
{
    parents.iter().zip(states).fold(
        false,
        |found, (up, state)| found | ((*state == RUNNING) & (*up == parent)),
    )
}

// Whether a number has the parent's byte `parent`.
pub fn has_child(parents: &[u8; 64], parent: u8) -> bool
    ensures { result ≡ any 64 (λ k. eqb (get_or parents.now k 0) parent) }
{
    parents
        .iter()
        .fold(false, |found, up| found | (*up == parent))
}
