// Where numbers may stand, by the index: what is looked for, and what changes, at those places only.
ghost use Rattle.std.specs.Prelude.{◌≡◌, ◌<◌, ◌+◌};
ghost use Rattle.tables.specs.OneWord.{left_at};
ghost use Rattle.index.specs.Places.{stand_in_place, still_in, places_of, left_in};

use crate::{Index, UNKNOWN};
use sets::Members;
use steps::clear::clear_words;
use steps::words::leave;

// Whether one of the numbers stands at a place.
fn stand_in_place(owners: &[u64; 256], numbers: u64, place: usize) -> bool
    requires { place < 64 }
    ensures { result ≡ stand_in_place owners.now numbers place }
{
    let readers = sets::union(owners[place], owners[64 + place]);
    let writers = sets::union(owners[128 + place], owners[192 + place]);
    sets::meet(sets::union(readers, writers), numbers)
}

// Of the places, those from the first on at which one of the numbers stands, and none where there is no such place. What is left of
// the places is the answer, so the loop keeps it itself.
pub(crate) fn still_in(owners: &[u64; 256], numbers: u64, places: u64) -> u64
    ensures { result ≡ still_in owners.now numbers places }
{
    let mut rest = places;
    while rest != 0 {
        let first = sets::least(rest);
        if stand_in_place(owners, numbers, first) {
            return rest;
        }
        rest = sets::without_least(rest);
    }
    0
}

// The places of all the numbers.
pub(crate) fn places_of(index: &Index, numbers: u64) -> u64
    ensures { result ≡ places_of index.now numbers }
{
    let mut places = 0u64;
    for k in Members(numbers) {
        places = sets::union(places, index.places(k));
    }
    places
}

// The numbers that have gone leave the sets of a place.
fn leave_place(owners: &mut [u64; 256], gone: u64, place: usize)
    requires { place < 64 }
    ensures { owners.new
        ≡ left_at (left_at (left_at (left_at owners.old place gone) (64 + place) gone) (128 + place) gone) (192 + place) gone }
{
    leave(owners, place, gone);
    leave(owners, 64 + place, gone);
    leave(owners, 128 + place, gone);
    leave(owners, 192 + place, gone);
}

// They leave the sets of all the places. Where these are all there are, one pass over the words is cheaper.
pub(crate) fn leave_places(owners: &mut [u64; 256], gone: u64, places: u64)
    ensures { owners.new ≡ left_in places gone owners.old }
{
    if places == UNKNOWN {
        clear_words(owners, gone);
        return;
    }
    for place in Members(places) {
        leave_place(owners, gone, place);
    }
}
