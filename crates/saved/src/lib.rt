// The saved form of a bench: its text, written into a lent buffer and read from lent bytes.
#![tactic(auto)]

pub mod in_place;

ghost use Rattle.std.specs.Prelude.{◌≡◌};
ghost use Rattle.saved.specs.Saved.{Saves, sized_as, Loads};

use crate::in_place::load_image;
use bench::Bench;
use image;
use marks::answers::{ACCEPTED, Refusal, number};
use saving::Saved;

// What a load hands back, as document 01 shapes it: the bench and the answer's number.
#[derive(Clone, Copy)]
pub struct Loaded {
    pub bench: Bench,
    pub answer: u8,
}

// How many bytes the text of a bench has.
pub fn text_size(b: Bench) -> Saved
    ensures { result ≡ sized_as b }
{
    let known = b.is_sound();
    if !known {
        return Saved {
            count: 0,
            answer: Refusal::Unsound as u8,
        };
    }
    Saved {
        count: saving::text_length(&b.states, &b.reads, &b.writes),
        answer: ACCEPTED,
    }
}

// Writes the text of a bench at the buffer's start. Refused, it writes nothing.
pub fn save(b: Bench, out: &mut [u8]) -> Saved
    ensures { Saves b out.old result out.new }
{
    if !b.is_sound() {
        return Saved {
            count: 0,
            answer: Refusal::Unsound as u8,
        };
    }
    saving::store_text(out, &b.parents, &b.states, &b.reads, &b.writes)
}

// The bench that a text says: 8 where it isn't well-shaped, then 7 where the bench isn't sound.
pub fn load(text: &[u8]) -> Loaded
    ensures { Loads text.now result }
{
    let mut actions = [0u8; 128];
    let mut owners = [0u64; 256];
    let answer = load_image(&mut actions, &mut owners, text);
    let bench = image::bench_of(&actions, &owners);
    Loaded {
        bench: bench,
        answer: number(answer),
    }
}
