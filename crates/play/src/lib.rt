// The trace player: bytes of lines in, answers out, from an empty bench on.
#![tactic(auto)]

mod feed;
mod finish;
mod owners;
mod place;
pub mod telling;

ghost use Rattle.std.specs.Prelude.{◌≡◌};
ghost use Rattle.rules.specs.Bench.{empty};
ghost use Rattle.lines.specs.Feeding.{between};
ghost use Rattle.play.specs.Feeding.{feeding};

use bench::Bench;

// A trace player: a bench, and what is known of the line that has begun, `count` digits that write `value`; a count of 7 where no request can come of
// it any more.
#[derive(Clone, Copy)]
pub struct Player {
    pub bench: Bench,
    pub count: u8,
    pub value: u32,
}

// What feeding hands back: the player, how many bytes of the input were taken and how many were written.
#[derive(Clone, Copy)]
pub struct Fed {
    pub player: Player,
    pub used: usize,
    pub written: usize,
}

impl Player {
    // A player on an empty bench, before any line.
    pub fn new() -> Player
        ensures { feeding result ≡ between empty }
    {
        Player {
            bench: Bench::empty(),
            count: 0,
            value: 0,
        }
    }
}
