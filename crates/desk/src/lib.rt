// Many requests in one call, for a caller that lends the bench's image and a list of request records as flat words: four words a record, which are its kind, its
// two numbers and the place for its answer. The image is tested once for the whole list.
#![tactic(auto)]

ghost use Rattle.std.specs.Prelude.{◌≡◌, true, false};
ghost use Rattle.rules.specs.Frames.{framed};
ghost use Rattle.marks.specs.Answers.{answer_number};
ghost use Rattle.marks.specs.Requests.{meant_by};
ghost use Rattle.steps.specs.Arrays.{lent};
ghost use Rattle.image.specs.Image.{is_image};
ghost use Rattle.desk.specs.Desk.{too_long, ListPlayed, KnownLists, EntryDone, ListDone};

use image::{is_image, unsound_refusal};
use marks::answers::{Answer, Refusal, number};
use marks::requests::Request;
use soundness::{sound, standing};
use steps::engine::request;

// A list has at most so many records.
pub const LONGEST_LIST: usize = 32;

// The request of a record, and none where its kind is no request's.
fn request_of(kind: u32, x: u32, y: u32) -> Option<Request>
    ensures { meant_by result ≡ framed kind x y }
{
    let code = u8::try_from(kind).ok()?;
    Request::framed(code, x, y)
}

// A record's request is made on the arrays of a bench of which it is known whether it is sound. Where the record has none, nothing is asked of the bench.
fn play_record(
    parents: &mut [u8; 64],
    states: &mut [u8; 64],
    owners: &mut [u64],
    is_sound: bool,
    asked: Option<Request>,
) -> Answer
    requires { KnownLists is_sound (lent parents.old states.old owners.old) }
    ensures { EntryDone is_sound (meant_by asked) (lent parents.old states.old owners.old)
        (answer_number result) (lent parents.new states.new owners.new) }
{
    if asked.is_none() {
        return Err(Refusal::Malformed);
    }
    if is_sound {
        return request(parents, states, owners, asked);
    }
    Err(unsound_refusal(asked))
}

// All whole records of the words are played in their order, each on the bench that the one before it left.
#[inline(never)] // keeps the stack that the C header states
fn play_records(
    parents: &mut [u8; 64],
    states: &mut [u8; 64],
    owners: &mut [u64],
    is_sound: bool,
    words: &mut [u32],
)
    requires { KnownLists is_sound (lent parents.old states.old owners.old) }
    ensures { ListDone is_sound (lent parents.old states.old owners.old) words.old
        (lent parents.new states.new owners.new) words.new }
{
    // By places and not by chunks: of words written through `chunks_exact_mut` a proof knows nothing afterwards.
    for k in 0..words.len() / 4 {
        let at = 4 * k;
        let asked = request_of(words[at], words[at + 1], words[at + 2]);
        let answer = play_record(parents, states, owners, is_sound, asked);
        words[at + 3] = u32::from(number(answer));
    }
}

// A list that isn't too long is played on an image, in place.
fn play_on_image(actions: &mut [u8], owners: &mut [u64], words: &mut [u32])
    requires { (is_image actions.old owners.old ≡ true) × (too_long words.old ≡ false) }
    ensures { ListPlayed actions.old owners.old words.old 0 actions.new owners.new words.new }
{
    if let Some((parents, rest)) = actions.split_first_chunk_mut::<64>() {
        if let Some(states) = rest.as_mut_array::<64>() {
            let is_sound = sound(parents, states, standing(owners));
            play_records(parents, states, owners, is_sound, words);
        }
    }
}

// Plays a list of request records on an image in place, with the answers of single calls in list order. A list of more than 32 is answered 11, and nothing is
// done; else slices that are no image are answered 7, and else the call 0.
pub fn play_words(actions: &mut [u8], owners: &mut [u64], words: &mut [u32]) -> Answer
    ensures { ListPlayed actions.old owners.old words.old (answer_number result) actions.new owners.new words.new }
{
    if words.len() / 4 > LONGEST_LIST {
        return Err(Refusal::TooLong);
    }
    if !is_image(actions, owners) {
        return Err(Refusal::Unsound);
    }
    play_on_image(actions, owners, words);
    Ok(())
}
