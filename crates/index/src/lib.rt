// The index that is kept beside a bench's arrays, so that no line looks through them: how it is made, and the requests that keep it.
#![tactic(auto)]

mod ends;
mod kept_family;
mod places;
mod quiets;
pub mod requests;
mod stores;

ghost use Rattle.std.specs.Prelude.{List, ◌∷◌, ◌++◌, ℕ, ◌≡◌, length, take, drop, get_or};
ghost use Rattle.index.specs.Making.{MadeOf};
ghost use Rattle.index.specs.Tables.{words_of};
ghost use Rattle.index.specs.Given.{children_given, lines_given, running_given, groups_given, places_given};

use std::marker::Model;
use tree::each::{children_in, lines_in, running_in};

// The children of each number, each number with its ancestors, and the running numbers, all as sets; the group of each head, and the places at which each number may
// stand. Contracts speak of it as the 257 words of these parts, which give the parts back. The parts are public: any words make an index, of a sound bench or of none.
#[derive(Clone, Copy)]
pub struct Index {
    pub children: [u64; 64],
    pub lines: [u64; 64],
    pub running: u64,
    pub groups: [u64; 64],
    pub places: [u64; 64],
}

impl Model for Index {
    ghost Value = { List ℕ };

    ghost view = { λ i. words_of i.children i.lines i.running i.groups i.places };

    // The lengths that the parts have by their types.
    ghost invariant = { λ i. (length i.children ≡ 64) × (length i.lines ≡ 64) × (length i.groups ≡ 64) × (length i.places ≡ 64) };

    ghost inverse = { λ w. record { children = take 64 w; lines = take 64 (drop 64 w); running = get_or w 128 0; groups = take 64 (drop 129 w); places = drop 193 w } };

    ghost inverse_ok = { λ a h i. record {
      children = children_given a.children a.lines a.running a.groups a.places h.0 h.1 h.2 i;
      lines = lines_given a.children a.lines a.running a.groups a.places h.0 h.1 h.2 i;
      running = running_given a.children a.lines a.running a.groups a.places h.0 h.1 h.2 i;
      groups = groups_given a.children a.lines a.running a.groups a.places h.0 h.1 h.2 i;
      places = places_given a.children a.lines a.running a.groups a.places h.0 h.1 h.2 i;
    } };
}

// What is said of a group or of places of which nothing is known.
pub(crate) const UNKNOWN: u64 = 18446744073709551615;

impl Index {
    // The index of parents and states. That of a sound bench is the bench's.
    #[inline(always)] // keeps the stack that the C header states
    pub fn of<'a>(parents: &'a [u8; 64], states: &'a [u8; 64]) -> Index
        ensures { MadeOf parents.now states.now result }
    {
        Index {
            children: children_in(parents),
            lines: lines_in(parents),
            running: running_in(states),
            groups: [UNKNOWN; 64],
            places: [UNKNOWN; 64],
        }
    }
}
