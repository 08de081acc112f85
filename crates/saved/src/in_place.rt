// The saved form of a bench whose image is lent: its text written from the image and read into it, with no copy of its sets.
ghost use Rattle.std.specs.Prelude.{◌≡◌, true, [], replicate};
ghost use Rattle.marks.specs.Answers.{answer_number};
ghost use Rattle.image.specs.Image.{is_image};
ghost use Rattle.saved.specs.InPlace.{size_of_image, SavesImage, ReadFrom, LoadsInto};

use image;
use marks::answers::{ACCEPTED, Answer, Refusal};
use saving::Saved;

// How many bytes the text of an image's bench has.
#[tactic(auto, using(crate::proofs::InPlaceLaws::sound_bytes, crate::proofs::InPlaceLaws::sound_words))]
pub fn image_text_size<'a>(actions: &'a [u8], owners: &'a [u64]) -> Saved
    ensures { result ≡ size_of_image actions.now owners.now }
{
    if !image::is_sound(actions, owners) {
        return Saved {
            count: 0,
            answer: Refusal::Unsound as u8,
        };
    }
    Saved {
        count: saving::text_length(&actions[64..128], &owners[0..128], &owners[128..256]),
        answer: ACCEPTED,
    }
}

// Writes the text of an image's bench at the buffer's start. Refused, it writes nothing.
#[tactic(auto, using(crate::proofs::InPlaceLaws::sound_bytes, crate::proofs::InPlaceLaws::sound_words))]
pub fn save_image<'a>(actions: &'a [u8], owners: &'a [u64], out: &mut [u8]) -> Saved
    ensures { SavesImage actions.now owners.now out.old result out.new }
{
    if !image::is_sound(actions, owners) {
        return Saved {
            count: 0,
            answer: Refusal::Unsound as u8,
        };
    }
    saving::store_text(
        out,
        &actions[0..64],
        &actions[64..128],
        &owners[0..128],
        &owners[128..256],
    )
}

// Reads a text into the image of an empty bench, and tells what it is answered.
fn read_into(actions: &mut [u8], owners: &mut [u64], text: &[u8]) -> Answer
    requires { (actions.old ≡ replicate 128 0) × (owners.old ≡ replicate 256 0) }
    ensures { ReadFrom text.now (answer_number result) actions.new owners.new }
{
    let behind = loading::read_actions(text, actions);
    let end = loading::read_instruments(text, behind, owners);
    if end != text.len() {
        return Err(Refusal::Malformed);
    }
    if !image::is_sound(actions, owners) {
        return Err(Refusal::Unsound);
    }
    Ok(())
}

// Makes the image that of the bench that a text says, an empty one where the text is refused: 8 where it isn't well-shaped, then 7 where the bench isn't sound.
pub fn load_image(actions: &mut [u8], owners: &mut [u64], text: &[u8]) -> Answer
    ensures { LoadsInto text.now actions.old owners.old (answer_number result) actions.new owners.new }
{
    if !image::is_image(actions, owners) {
        return Err(Refusal::Unsound);
    }
    image::clear(actions, owners);
    let answer = read_into(actions, owners, text);
    if answer.is_err() {
        image::clear(actions, owners);
    }
    answer
}
