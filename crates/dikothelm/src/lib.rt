// The bench for C callers. The caller keeps the bench's image and lends it to each call: a pointer and a count to 128 bytes, the parents of the 64 numbers
// and then their states, and to 256 words, the read sets of the 128 instruments and then the write sets. Nothing is kept between calls.
#![tactic(auto)]

mod feed;

ghost use Rattle.std.specs.Prelude.{◌≡◌};
ghost use Rattle.std.proofs.Math.Option.{some};
ghost use Rattle.rules.specs.Requests.{open_top, open_sub, commit, abort, quiet};
ghost use Rattle.rules.specs.ReadWrite.{read, write};
ghost use Rattle.desk.specs.Desk.{ListPlayed};
ghost use Rattle.image.specs.Image.{Requested};
ghost use Rattle.saved.specs.Saved.{empty_record, load_of};
ghost use Rattle.dikothelm.specs.Calls.{Replaced, sound_answer, SavedAs, SizeTold};

use desk::play_words;
use image;
use marks::answers::{Refusal, number};
use marks::requests::Request;
use saved::in_place::{image_text_size, load_image, save_image};

// Makes the image that of an empty bench.
#[unsafe(no_mangle)]
pub extern "C" fn dikothelm_image_empty(actions: &mut [u8], owners: &mut [u64]) -> u8
    ensures { Replaced 0 empty_record actions.old owners.old result actions.new owners.new }
{
    if !image::is_image(actions, owners) {
        return number(Err(Refusal::Unsound));
    }
    image::clear(actions, owners);
    number(Ok(()))
}

// Whether the image is that of a sound bench: 0, else 7.
#[unsafe(no_mangle)]
pub extern "C" fn dikothelm_image_sound(actions: &[u8], owners: &[u64]) -> u8
    ensures { result ≡ sound_answer actions.now owners.now }
{
    if !image::is_sound(actions, owners) {
        return number(Err(Refusal::Unsound));
    }
    number(Ok(()))
}

// Makes n a running top action.
#[unsafe(no_mangle)]
pub extern "C" fn dikothelm_image_open_top(actions: &mut [u8], owners: &mut [u64], n: u32) -> u8
    ensures { Requested (some (open_top n)) actions.old owners.old result actions.new owners.new }
{
    number(image::request(actions, owners, Some(Request::OpenTop(n))))
}

// Makes n a running action with parent p.
#[unsafe(no_mangle)]
pub extern "C" fn dikothelm_image_open_sub(
    actions: &mut [u8],
    owners: &mut [u64],
    n: u32,
    p: u32,
) -> u8
    ensures { Requested (some (open_sub n p)) actions.old owners.old result actions.new owners.new }
{
    number(image::request(actions, owners, Some(Request::OpenSub(n, p))))
}

// Adds a to the read set of instrument i.
#[unsafe(no_mangle)]
pub extern "C" fn dikothelm_image_read(actions: &mut [u8], owners: &mut [u64], a: u32, i: u32) -> u8
    ensures { Requested (some (read a i)) actions.old owners.old result actions.new owners.new }
{
    number(image::request(actions, owners, Some(Request::Read(a, i))))
}

// Adds a to the write set of instrument i.
#[unsafe(no_mangle)]
pub extern "C" fn dikothelm_image_write(
    actions: &mut [u8],
    owners: &mut [u64],
    a: u32,
    i: u32,
) -> u8
    ensures { Requested (some (write a i)) actions.old owners.old result actions.new owners.new }
{
    number(image::request(actions, owners, Some(Request::Write(a, i))))
}

// A sub becomes committed and no owner set changes; a top and all its descendants become free and leave all sets.
#[unsafe(no_mangle)]
pub extern "C" fn dikothelm_image_commit(actions: &mut [u8], owners: &mut [u64], a: u32) -> u8
    ensures { Requested (some (commit a)) actions.old owners.old result actions.new owners.new }
{
    number(image::request(actions, owners, Some(Request::Commit(a))))
}

// a and all its descendants, running or committed, drain under a where one of them stands in a set, and else become free. No set changes.
#[unsafe(no_mangle)]
pub extern "C" fn dikothelm_image_abort(actions: &mut [u8], owners: &mut [u64], a: u32) -> u8
    ensures { Requested (some (abort a)) actions.old owners.old result actions.new owners.new }
{
    number(image::request(actions, owners, Some(Request::Abort(a))))
}

// Instrument i is quiet for the aborted action a: all numbers that drain under a leave its sets, and become free when none of them is left in any set.
#[unsafe(no_mangle)]
pub extern "C" fn dikothelm_image_quiet(
    actions: &mut [u8],
    owners: &mut [u64],
    a: u32,
    i: u32,
) -> u8
    ensures { Requested (some (quiet a i)) actions.old owners.old result actions.new owners.new }
{
    number(image::request(actions, owners, Some(Request::Quiet(a, i))))
}

// Plays a list of at most 32 requests, four words a record: kind, two numbers, and the place for the answer.
#[unsafe(no_mangle)]
pub extern "C" fn dikothelm_image_list(
    actions: &mut [u8],
    owners: &mut [u64],
    words: &mut [u32],
) -> u8
    ensures { ListPlayed actions.old owners.old words.old result actions.new owners.new words.new }
{
    number(play_words(actions, owners, words))
}

// The library's version: major × 65536 + minor × 256 + patch.
#[unsafe(no_mangle)]
pub extern "C" fn dikothelm_version() -> u32
    ensures { result ≡ 1024 }
{
    1024
}

// How many bytes the bench's text has, in `count`; 7 and 0 where there is no sound bench.
#[unsafe(no_mangle)]
pub extern "C" fn dikothelm_image_text_size<'a>(
    actions: &'a [u8],
    owners: &'a [u64],
    count: &mut usize,
) -> u8
    ensures { SizeTold actions.now owners.now result count.new }
{
    let size = image_text_size(actions, owners);
    *count = size.count;
    size.answer
}

// Writes the bench's text at the buffer's start; `count` says how many bytes. Refused, it writes nothing.
#[unsafe(no_mangle)]
pub extern "C" fn dikothelm_image_save<'a>(
    actions: &'a [u8],
    owners: &'a [u64],
    out: &mut [u8],
    count: &mut usize,
) -> u8
    ensures { SavedAs actions.now owners.now out.old result out.new count.new }
{
    let saved = save_image(actions, owners, out);
    *count = saved.count;
    saved.answer
}

// Makes the image that of the bench that a text says, an empty one where the text is refused.
#[unsafe(no_mangle)]
pub extern "C" fn dikothelm_image_load(actions: &mut [u8], owners: &mut [u64], text: &[u8]) -> u8
    ensures { Replaced (load_of text.now).answer (load_of text.now).bench actions.old owners.old result actions.new owners.new }
{
    number(load_image(actions, owners, text))
}
