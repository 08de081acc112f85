// Playing a trace chunk by chunk on an image, and the end of its input, for C callers. The progress is four words: count and value of the line that has begun, 0 and 0 at a trace's
// start, and how many bytes of the input were taken and how many were written.
ghost use Rattle.std.specs.Prelude.{◌≡◌, true, [], ◌∷◌, length};
ghost use Rattle.play.specs.Feeding.{feeding};
ghost use Rattle.dikothelm.specs.Calls.{playable, line_count, standing, Played, Finished};

use image;
use marks::answers::{Refusal, number};
use play::Player;

// Whether the slices are an image and a player's progress.
fn is_playable(actions: &[u8], owners: &[u64], progress: &[u64]) -> bool
    ensures { result ≡ playable actions.now owners.now progress.now }
{
    image::is_image(actions, owners) & (progress.len() == 4)
}

// How many digits of a line have come, 7 where no request can come of it any more.
fn line_count(word: u64) -> u8
    ensures { result ≡ line_count word }
{
    u8::try_from(word).unwrap_or(7)
}

// The caller's player.
fn player_of(actions: &[u8], owners: &[u64], progress: &[u64]) -> Player
    requires { playable actions.now owners.now progress.now ≡ true }
    ensures { feeding result ≡ standing actions.now owners.now progress.now }
{
    Player {
        bench: image::bench_of(actions, owners),
        count: line_count(progress[0]),
        value: (progress[1] % 4294967296) as u32,
    }
}

fn put_progress(progress: &mut [u64], count: u8, value: u32, used: usize, written: usize)
    requires { length progress.old ≡ 4 }
    ensures { progress.new ≡ count ∷ value ∷ used ∷ written ∷ [] }
{
    progress[0] = u64::from(count);
    progress[1] = u64::from(value);
    progress[2] = used as u64;
    progress[3] = written as u64;
}

// Plays a chunk of a trace: takes as much of the input as surely has room for its answers, and writes those at the buffer's start.
#[unsafe(no_mangle)]
pub extern "C" fn dikothelm_image_play(
    actions: &mut [u8],
    owners: &mut [u64],
    progress: &mut [u64],
    input: &[u8],
    out: &mut [u8],
) -> u8
    ensures { Played actions.old owners.old progress.old input.now
        out.old result actions.new owners.new progress.new out.new }
{
    if !is_playable(actions, owners, progress) {
        return number(Err(Refusal::Unsound));
    }
    let player = player_of(actions, owners, progress);
    let fed = player.feed(input, out);
    image::store(fed.player.bench, actions, owners);
    put_progress(
        progress,
        fed.player.count,
        fed.player.value,
        fed.used,
        fed.written,
    );
    number(Ok(()))
}

// Ends the input of a trace: a last line that lacks its 0a is answered if it has at least one character, nothing else. Where the buffer has fewer than three
// bytes the line stays begun.
#[unsafe(no_mangle)]
pub extern "C" fn dikothelm_image_finish(
    actions: &mut [u8],
    owners: &mut [u64],
    progress: &mut [u64],
    out: &mut [u8],
) -> u8
    ensures { Finished actions.old owners.old progress.old out.old result
        actions.new owners.new progress.new out.new }
{
    if !is_playable(actions, owners, progress) {
        return number(Err(Refusal::Unsound));
    }
    let player = player_of(actions, owners, progress);
    let fed = player.finish(out);
    image::store(fed.player.bench, actions, owners);
    put_progress(
        progress,
        fed.player.count,
        fed.player.value,
        fed.used,
        fed.written,
    );
    number(Ok(()))
}
