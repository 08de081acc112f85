// Texts of benches, and the ways of damaging one.
use crate::draw::{byte_of, place_of};
use bench::Bench;
use trials::draw::Draws;

// A short text: the first `count` bytes are the text's.
#[derive(Clone, Copy)]
pub(crate) struct Text {
    bytes: [u8; 512],
    count: usize,
}

impl Text {
    pub(crate) fn as_slice(&self) -> &[u8] {
        &self.bytes[..self.count.min(512)]
    }

    // The part comes behind the text, as far as there is room.
    fn add(&mut self, part: &[u8]) {
        let start = self.count.min(512);
        let length = part.len().min(512 - start);
        self.bytes[start..start + length].copy_from_slice(&part[..length]);
        self.count = start + length;
    }

    // The byte at a place, where the text has that place.
    fn change(&mut self, place: usize, byte: u8) {
        if let Some(at) = self.bytes[..self.count.min(512)].get_mut(place) {
            *at = byte;
        }
    }
}

// The text of a bench on a walk, which has at most 440 bytes.
pub(crate) fn text_of(b: Bench) -> Text {
    let mut bytes = [0u8; 512];
    let reply = saved::save(b, &mut bytes);
    Text {
        bytes,
        count: reply.count,
    }
}

// The parts, one behind the other.
fn joined(parts: &[&[u8]]) -> Text {
    let mut text = Text {
        bytes: [0; 512],
        count: 0,
    };
    for part in parts {
        text.add(part);
    }
    text
}

// The line that has this place with its 0a, and what stands before and behind it.
fn around(text: &[u8], place: usize) -> (&[u8], &[u8], &[u8]) {
    let (head, tail) = text.split_at(place.min(text.len()));
    let start = head.iter().rposition(|c| *c == b'\n').map_or(0, |k| k + 1);
    let length = tail
        .iter()
        .position(|c| *c == b'\n')
        .map_or(tail.len(), |k| k + 1);
    let (before, _) = head.split_at(start);
    let (_, behind) = tail.split_at(length);
    (before, &text[start..head.len() + length], behind)
}

fn line_doubled(text: &[u8], place: usize) -> Text {
    let (before, line, behind) = around(text, place);
    joined(&[before, line, line, behind])
}

fn line_removed(text: &[u8], place: usize) -> Text {
    let (before, _, behind) = around(text, place);
    joined(&[before, behind])
}

// The lines of two places change places, where they are two.
fn lines_swapped(text: &[u8], one: usize, other: usize) -> Text {
    let (before, first, rest) = around(text, one.min(other));
    match one
        .max(other)
        .checked_sub(text.len().saturating_sub(rest.len()))
    {
        Some(place) => {
            let (between, second, behind) = around(rest, place);
            joined(&[before, second, between, first, behind])
        }
        None => joined(&[text]),
    }
}

fn byte_inserted(text: &[u8], place: usize, byte: u8) -> Text {
    let (before, behind) = text.split_at(place.min(text.len()));
    joined(&[before, &[byte], behind])
}

fn byte_removed(text: &[u8], place: usize) -> Text {
    let (before, behind) = text.split_at(place.min(text.len()));
    joined(&[before, behind.get(1..).unwrap_or(&[])])
}

// The text with bytes changed, this many times.
fn bytes_changed(text: &[u8], times: u32, draws: &mut Draws) -> Text {
    let mut left = joined(&[text]);
    for _ in 0..times {
        let place = place_of(draws.next(), text.len());
        left.change(place, byte_of(draws.next()));
    }
    left
}

// The kinds of damage.
#[derive(Clone, Copy, Debug, PartialEq, Eq)]
enum Damage {
    // How many times a byte is changed.
    BytesChanged(u32),
    Cut,
    LineDoubled,
    LineRemoved,
    LinesSwapped,
    ByteInserted,
    ByteRemoved,
}

impl Damage {
    // Which kind a drawn number stands for: in twelve, 3 a byte changed once, 2 twice, 1 three times, and 1 each other.
    fn of(x: u64) -> Damage {
        match x % 12 {
            0..=2 => Damage::BytesChanged(1),
            3 | 4 => Damage::BytesChanged(2),
            5 => Damage::BytesChanged(3),
            6 => Damage::Cut,
            7 => Damage::LineDoubled,
            8 => Damage::LineRemoved,
            9 => Damage::LinesSwapped,
            10 => Damage::ByteInserted,
            _ => Damage::ByteRemoved,
        }
    }
}

// The text with damage of a drawn kind.
pub(crate) fn damaged(text: &[u8], draws: &mut Draws) -> Text {
    let damage = Damage::of(draws.next());
    if let Damage::BytesChanged(times) = damage {
        return bytes_changed(text, times, draws);
    }
    let place = place_of(draws.next(), text.len());
    let y = draws.next();
    match damage {
        Damage::BytesChanged(_) => joined(&[text]),
        Damage::Cut => joined(&[text.get(..place).unwrap_or(text)]),
        Damage::LineDoubled => line_doubled(text, place),
        Damage::LineRemoved => line_removed(text, place),
        Damage::LinesSwapped => lines_swapped(text, place, place_of(y, text.len())),
        Damage::ByteInserted => byte_inserted(text, place, byte_of(y)),
        Damage::ByteRemoved => byte_removed(text, place),
    }
}
