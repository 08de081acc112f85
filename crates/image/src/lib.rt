// A bench's image, as a C caller lends it: 128 bytes, the parents of the 64 numbers and then their states, and 256 words, the read sets of the 128
// instruments and then the write sets. Slices of other lengths are no image. C hands over two pointers with two counts, so each call takes two slices.
#![tactic(auto)]

ghost use Rattle.std.specs.Prelude.{◌≡◌, ◌++◌, true, ◌+◌, length};
ghost use Rattle.image.specs.Image.{is_image, sound_image, empty_record, record_of, StoredAs, actions_in, actions_stored, unsound_answer, Requested};
ghost use Rattle.marks.specs.Answers.{answer_number, refusal_number};
ghost use Rattle.marks.specs.Requests.{meant_by, code_of, first_of, second_of};
ghost use Rattle.steps.specs.Arrays.{lent};
ghost use Rattle.steps.specs.Steps.{Requested as Made};

use bench::Bench;
use copies::{put_words, words_from};
use marks::answers::{Answer, Refusal};
use marks::requests::Request;
use soundness::{sound, standing};
use steps::engine;

// Whether the slices are an image: by their lengths alone.
pub fn is_image(actions: &[u8], owners: &[u64]) -> bool
    ensures { result ≡ is_image actions.now owners.now }
{
    (actions.len() == 128) & (owners.len() == 256)
}

// The parents and states of the 64 numbers.
#[derive(Drop)]
pub struct Actions {
    pub parents: [u8; 64],
    pub states: [u8; 64],
}

// Puts two lists of one length into a list of twice that, one behind the other.
fn put_halves<'a, T: Copy, const N: usize>(list: &mut [T], first: &'a [T; N], second: &'a [T; N])
    requires { (length list.old ≡ N + N) × (length first.now ≡ N) × (length second.now ≡ N) }
    ensures { list.new ≡ first.now ++ second.now }
{
    put_words(list, 0, first);
    put_words(list, N, second);
}

// Why a request is refused on an image that isn't sound: for that, or for there being none.
pub fn unsound_refusal(asked: Option<Request>) -> Refusal
    ensures { refusal_number result ≡ unsound_answer (code_of asked) }
{
    match asked {
        Some(_) => Refusal::Unsound,
        None => Refusal::Malformed,
    }
}

// The request on the arrays of a bench, in place.
#[inline(never)] // keeps the stack that the C header states: its frame isn't taken during the soundness test
fn make(
    parents: &mut [u8; 64],
    states: &mut [u8; 64],
    owners: &mut [u64],
    asked: Option<Request>,
) -> Answer
    ensures { Made (code_of asked) (first_of asked) (second_of asked)
        (lent parents.old states.old owners.old) (answer_number result)
        (lent parents.new states.new owners.new) }
{
    engine::request(parents, states, owners, asked)
}

// The request on the arrays of an image, in place.
fn in_place(
    parents: &mut [u8; 64],
    states: &mut [u8; 64],
    owners: &mut [u64],
    asked: Option<Request>,
) -> Answer
    requires { length owners.old ≡ 256 }
    ensures { Requested (meant_by asked) (parents.old ++ states.old) owners.old (answer_number result) (parents.new ++ states.new) owners.new }
{
    if !sound(parents, states, standing(owners)) {
        return Err(unsound_refusal(asked));
    }
    make(parents, states, owners, asked)
}

// Makes a request on an image in place; where there is none, that is malformed.
pub fn request(actions: &mut [u8], owners: &mut [u64], asked: Option<Request>) -> Answer
    ensures { Requested (meant_by asked) actions.old owners.old (answer_number result) actions.new owners.new }
{
    if !is_image(actions, owners) {
        return Err(Refusal::Unsound);
    }
    if let Some((parents, rest)) = actions.split_first_chunk_mut::<64>() {
        if let Some(states) = rest.as_mut_array::<64>() {
            return in_place(parents, states, owners, asked);
        }
    }
    Err(Refusal::Unsound)
}

// Whether the image is that of a sound bench; slices that are none aren't. All is read in place.
pub fn is_sound(actions: &[u8], owners: &[u64]) -> bool
    ensures { result ≡ sound_image actions.now owners.now }
{
    if !is_image(actions, owners) {
        return false;
    }
    if let Some((parents, rest)) = actions.split_first_chunk::<64>() {
        if let Some(states) = rest.as_array::<64>() {
            return sound(parents, states, standing(owners));
        }
    }
    false
}

// Makes the image that of an empty bench; slices that are none stay as they are.
pub fn clear(actions: &mut [u8], owners: &mut [u64])
    ensures { StoredAs empty_record actions.old owners.old actions.new owners.new }
{
    if is_image(actions, owners) {
        actions.fill(0);
        owners.fill(0);
    }
}

// The record of an image, and an empty one of slices that are none.
pub fn bench_of(actions: &[u8], owners: &[u64]) -> Bench
    ensures { result ≡ record_of actions.now owners.now }
{
    if !is_image(actions, owners) {
        return Bench {
            parents: [0u8; 64],
            states: [0u8; 64],
            reads: [0u64; 128],
            writes: [0u64; 128],
        };
    }
    Bench {
        parents: words_from(actions, 0, 0),
        states: words_from(actions, 64, 0),
        reads: words_from(owners, 0, 0),
        writes: words_from(owners, 128, 0),
    }
}

// Writes a record into an image; slices that are none stay as they are.
pub fn store(bench: Bench, actions: &mut [u8], owners: &mut [u64])
    ensures { StoredAs bench actions.old owners.old actions.new owners.new }
{
    if is_image(actions, owners) {
        put_halves(actions, &bench.parents, &bench.states);
        put_halves(owners, &bench.reads, &bench.writes);
    }
}

// The parents and states of an image's bytes, and those of free numbers where there are other than 128.
pub fn actions_of(actions: &[u8]) -> Actions
    ensures { result ≡ actions_in actions.now }
{
    if actions.len() != 128 {
        return Actions {
            parents: [0u8; 64],
            states: [0u8; 64],
        };
    }
    Actions {
        parents: words_from(actions, 0, 0),
        states: words_from(actions, 64, 0),
    }
}

// Writes parents and states into an image's bytes; other than 128 stay as they are.
pub fn store_actions(from: Actions, actions: &mut [u8])
    ensures { actions.new ≡ actions_stored from actions.old }
{
    if actions.len() == 128 {
        put_halves(actions, &from.parents, &from.states);
    }
}
