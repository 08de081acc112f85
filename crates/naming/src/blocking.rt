// Who blocks: the owners of an instrument that are neither the asker nor an ancestor; and who is a running child.
ghost use Rattle.std.specs.Prelude.{◌≡◌, ◌%◌, None, Some, eqb, ℕ, ◌<◌, IfSome, get_or};
ghost use Rattle.rules.specs.Tests.{from};
ghost use Rattle.marks.specs.Requests.{code_of, first_of};
ghost use Rattle.naming.specs.Blocking.{drains_in, blocked_in, child_with};

use crate::Somebody;
use crate::offending::first_number;
use heirs::owners::{conflicting, owners_of};
use marks::requests::{Request, writes};
use marks::states::{DRAINING, RUNNING};

// Whether number k drains under itself.
fn drains(states: &[u8; 64], k: usize) -> bool
    ensures { result ≡ drains_in states.now k }
{
    k < 64 && usize::from(states[k]) == usize::from(DRAINING) + k
}

// The smallest-numbered one that blocks the asker, the sets of the instrument in which it owns, and whether it drains; 0 and none of them where nobody blocks.
pub(crate) fn blocked<'a>(
    parents: &'a [u8; 64],
    states: &'a [u8; 64],
    readers: u64,
    writers: u64,
    asked: Option<Request>,
) -> Somebody
    ensures { result ≡ blocked_in parents.now states.now readers writers (code_of asked) (first_of asked % 64) }
{
    let reading = owners_of(parents, states, readers);
    let writing = owners_of(parents, states, writers);
    let line = tree::line_of(parents, (first_number(asked) % 64) as usize);
    let blocker = sets::least(sets::difference(conflicting(writes(asked), reading, writing), line));
    Somebody {
        number: (blocker % 64) as u32,
        reads: sets::member(reading, blocker),
        writes: sets::member(writing, blocker),
        drains: drains(states, blocker),
    }
}

// The smallest running number whose parent's byte is `parent`.
pub(crate) fn first_child<'a>(
    parents: &'a [u8; 64],
    states: &'a [u8; 64],
    parent: u8,
) -> Option<u32>
    ensures is { IfSome result (λ k. (k < 64) × (get_or states.now k 0 ≡ 1) × (get_or parents.now k 0 ≡ parent)) }
    ensures first { IfSome result (λ k. (j : ℕ) → j < k → get_or states.now j 0 ≡ 1 → get_or parents.now j 0 ≡ parent → ⊥) }
    ensures none { result ≡ None → (j : ℕ) → j < 64 → get_or states.now j 0 ≡ 1 → get_or parents.now j 0 ≡ parent → ⊥ }
{
    (0..64u32).find(|&k| states[k as usize] == RUNNING && parents[k as usize] == parent)
}
