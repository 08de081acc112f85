// A saved text, read into the lists that its frames fill: the parents of the 64 numbers and then their states, and the read sets of the 128 instruments and
// then the write sets.
#![tactic(auto)]

mod fields;

ghost use Rattle.std.specs.Prelude.{◌≡◌, ℕ, ◌+◌, ◌<◌, length, map, option_map};
ghost use Rattle.forms.specs.Kinds.{parent_byte, state_byte, action, instrument};
ghost use Rattle.forms.specs.WellShaped.{take_of};
ghost use Rattle.loading.specs.Fields.{elements_of};
ghost use Rattle.loading.specs.Halves.{halves, ReadInto};

use forms::{Action, FrameKind, Instrument};

// A kind of frame whose two values say two elements.
trait Elements: FrameKind {
    type Element: Copy;

    ghost number: { Self.Element → ℕ };

    // The two elements that two values say; none where a frame can't have these values.
    fn elements_said(first: u64, second: u64) -> Option<(Self::Element, Self::Element)>
        ensures { option_map (λ v. (number v.0, number v.1)) result ≡ elements_of Self.kind first second };
}

impl Elements for Action {
    type Element = u8;

    ghost number = { λ x. x };

    fn elements_said(ss: u64, pp: u64) -> Option<(u8, u8)> {
        match (ss, pp) {
            (1..=3, 0..=63 | 0xff) => Some((parent_byte(ss, pp), state_byte(ss, pp))),
            _ => None,
        }
    }
}

impl Elements for Instrument {
    type Element = u64;

    ghost number = { λ x. x };

    fn elements_said(read: u64, write: u64) -> Option<(u64, u64)> {
        if (read == 0) & (write == 0) {
            None
        } else {
            Some((read, write))
        }
    }
}

// A parent's byte in the record, from ss and pp: none for a number that drains and for a top action.
fn parent_byte(ss: u64, pp: u64) -> u8
    requires { pp < 256 }
    ensures { result ≡ parent_byte ss pp }
{
    if ss == 3 {
        return 0;
    }
    if pp == 0xff {
        return 0;
    }
    (pp + 1) as u8
}

// A state's byte: of a number that drains it names the head, and where pp is ff it means nothing.
fn state_byte(ss: u64, pp: u64) -> u8
    requires { ss < 256 }
    ensures { result ≡ state_byte ss pp }
{
    if ss != 3 {
        return ss as u8;
    }
    if pp < 64 {
        return (3 + pp) as u8;
    }
    67
}

// Reads the frame of number k, if it stands there, into the two halves of a list; hands back where the text goes on.
fn take_frame<K: Elements>(text: &[u8], at: usize, k: usize, list: &mut [K::Element]) -> usize
    requires { (k < K.COUNT) × (length list.old ≡ K.COUNT + K.COUNT) }
    ensures { halves K.COUNT result (map K.number list.new) ≡ take_of K.kind text.now k (halves K.COUNT at (map K.number list.old)) }
{
    let Some(said) = fields::fields_at(text, at, K::DIGITS, K::CODE, k) else {
        return at;
    };
    let Some(elements) = K::elements_said(said.first, said.second) else {
        return at;
    };
    list[k] = elements.0;
    list[K::COUNT + k] = elements.1;
    at + K::SIZE
}

// Reads the frames of a kind from place `from` on; hands back where they end.
fn read_frames<K: Elements>(text: &[u8], from: usize, list: &mut [K::Element]) -> usize
    ensures { ReadInto K.kind K.COUNT text.now from (map K.number list.old) result (map K.number list.new) }
{
    if list.len() != K::COUNT + K::COUNT {
        return from;
    }
    let mut at = from;
    for k in 0..K::COUNT {
        at = take_frame::<K>(text, at, k, list);
    }
    at
}

// Reads the frames of actions from the text's start; hands back where they end.
#[inline(never)] // keeps the stack that the C header states
pub fn read_actions(text: &[u8], actions: &mut [u8]) -> usize
    ensures { ReadInto action 64 text.now 0 actions.old result actions.new }
{
    read_frames::<Action>(text, 0, actions)
}

// Reads the frames of instruments from place `from` on; hands back where they end.
#[inline(never)] // keeps the stack that the C header states
pub fn read_instruments(text: &[u8], from: usize, owners: &mut [u64]) -> usize
    ensures { ReadInto instrument 128 text.now from owners.old result owners.new }
{
    read_frames::<Instrument>(text, from, owners)
}
