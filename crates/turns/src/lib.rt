// Playing a trace: lines on standard input, and on standard output what is told of each. It starts from an empty bench; empty input gives empty output; it ends
// with its input. Where a read fails, the lines before it are told and a begun line is not played; where a write fails, it stops.
#![tactic(auto)]

ghost use Rattle.std.specs.Prelude.{◌≤◌, ◌/◌, length};
ghost use Rattle.play.specs.Finishing.{FinishedAsBy};

use play::telling::{Answers, Reasons, Telling};
use play::{Fed, Player};
use std::rt::Runtime;
use streams::{Failure, Mark, end, read_some, write_whole};

// Answers a trace.
pub fn answer<R: Runtime>(rt: &R) {
    tell::<R, Answers>(rt, &mut [0u8; 24576]);
}

// Explains a trace.
pub fn explain<R: Runtime>(rt: &R) {
    tell::<R, Reasons>(rt, &mut [0u8; 188416]);
}

// Plays the whole input, turn after turn. A proved loop has to end, and nothing says that the input does: it has more turns than any run takes.
fn tell<R: Runtime, T: Telling>(rt: &R, out: &mut [u8])
    requires room { 8192 ≤ length out.old / T.WIDTH }
{
    let mut player = Player::new();
    let mut input = [0u8; 8192];
    for _ in 0..u64::MAX {
        match turn::<R, T>(rt, player, &mut input, out) {
            Ok(Some(next)) => player = next,
            ended => return end(rt, ended.map(|_| Mark::Done)),
        }
    }
}

// Reads once, plays what came, and writes what is told of it: the player after it, or none where the input has ended. Every byte has room for what is told of
// the line that it may end, so all that came is taken.
fn turn<R: Runtime, T: Telling>(
    rt: &R,
    player: Player,
    input: &mut [u8],
    out: &mut [u8],
) -> Result<Option<Player>, Failure>
    requires room { length input.old ≤ length out.old / T.WIDTH }
{
    let count = read_some(rt, input)?;
    if count == 0 {
        let finished = finish::<T>(player, out);
        write_whole(rt, &out[..finished.written])?;
        return Ok(None);
    }
    let fed = player.tell::<T>(&input[..count], out);
    let taken = fed.used == count;
    prove!(taken);
    write_whole(rt, &out[..fed.written])?;
    Ok(Some(fed.player))
}

// Ends the input: of a last line that lacks its 0a the same is told as of any other.
fn finish<T: Telling>(player: Player, out: &mut [u8]) -> Fed
    ensures { FinishedAsBy T.say T.WIDTH player out.old result out.new }
{
    player.finish_telling::<T>(out)
}
