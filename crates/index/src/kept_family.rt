// Families, by the sets of children in the index.
ghost use Rattle.std.specs.Prelude.{List, ℕ, ◌<◌};
ghost use Rattle.index.specs.Families.{FamilyBy, FreedBy};

use crate::Index;
use rows::ACTIONS;

// a and all its descendants: `rest` are children of numbers taken in so far that are still to be taken in. Children come into `rest` on the way, so these are not the
// members of one set, taken one after the other.
fn family_in(index: &Index, a: usize) -> u64
    requires { a < 64 }
    ensures { FamilyBy index.now a result }
{
    let mut gone = sets::with(0, a);
    let mut rest = sets::difference(index.children(a), gone);
    while rest != 0 {
        let k = sets::least(rest);
        gone = sets::with(gone, k);
        rest = sets::difference(sets::union(rest, index.children(k)), gone);
    }
    gone
}

// The family that an abort of x takes out of the tree: that of x.
pub(crate) fn family_of(index: &Index, x: u32) -> u64
    ensures { (parents : List ℕ) → FreedBy 6 x parents index.now result }
{
    family_in(index, (x % ACTIONS) as usize)
}

// The family that a commit of x takes out of the tree: that of x where x has no parent, and else nobody's.
pub(crate) fn family_of_top<'a>(parents: &'a [u8; 64], index: &'a Index, x: u32) -> u64
    ensures { FreedBy 5 x parents.now index.now result }
{
    let a = (x % ACTIONS) as usize;
    if parents[a] == 0 {
        return family_in(index, a);
    }
    0
}
