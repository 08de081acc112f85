// Digits, frames, and what each number and each instrument adds to a text: how long it is, and written into a lent buffer.
ghost use Rattle.std.specs.Prelude.{◌≡◌, List, ℕ, ◌+◌, ◌*◌, ◌/◌, ◌%◌, ◌^◌, ◌<◌, ◌≤◌, length};
ghost use Rattle.std.proofs.lemmas.List.Edits.{sets};
ghost use Rattle.forms.specs.Kinds.{even_shape, frame_size, state_digits, parent_digits, action, instrument, Kind};
ghost use Rattle.forms.specs.Text.{hex_digit, hex_of, frame, cell_of, cells_from};
ghost use Rattle.saving.specs.Written.{Written, values_of};

use forms::{Action, FrameKind, Instrument};
use marks::states::{DRAINING, FREE};

// What adds to a text: numbers or instruments, each of which has a frame of one kind or none.
pub(crate) trait Cells {
    type Kind: FrameKind;

    ghost first: { Self → List ℕ };

    ghost second: { Self → List ℕ };

    // The two values of the frame of number k; none where it has no frame.
    fn values(&self, k: usize) -> Option<(u64, u64)>
        ensures { result ≡ values_of Self.Kind.kind (first self.now) (second self.now) k };
}

// The numbers: a parent and a state of each.
#[derive(Clone, Copy)]
pub(crate) struct Numbers<'a> {
    pub(crate) parents: &'a [u8],
    pub(crate) states: &'a [u8],
}

// The instruments: a read set and a write set of each.
#[derive(Clone, Copy)]
pub(crate) struct Instruments<'a> {
    pub(crate) reads: &'a [u64],
    pub(crate) writes: &'a [u64],
}

impl<'a> Cells for Numbers<'a> {
    type Kind = Action;

    ghost first = { λ s. s.parents.now };

    ghost second = { λ s. s.states.now };

    fn values(&self, k: usize) -> Option<(u64, u64)> {
        let state = self.states.get(k).copied().unwrap_or(FREE);
        if state == FREE {
            return None;
        }
        let parent = self.parents.get(k).copied().unwrap_or(0);
        Some((state_digits(state), parent_digits(parent, state)))
    }
}

impl<'a> Cells for Instruments<'a> {
    type Kind = Instrument;

    ghost first = { λ s. s.reads.now };

    ghost second = { λ s. s.writes.now };

    fn values(&self, k: usize) -> Option<(u64, u64)> {
        let read = self.reads.get(k).copied().unwrap_or(0);
        let written = self.writes.get(k).copied().unwrap_or(0);
        if (read == 0) & (written == 0) {
            None
        } else {
            Some((read, written))
        }
    }
}

// ss, from a state's byte: running, committed or draining.
fn state_digits(state: u8) -> u64
    ensures { result ≡ state_digits state }
{
    u64::from(state.min(DRAINING))
}

// pp, from both bytes: of a number that drains the aborted action, else the parent, or ff for a top action.
fn parent_digits(parent: u8, state: u8) -> u64
    ensures { result ≡ parent_digits parent state }
{
    if state < DRAINING {
        if parent == 0 {
            return 0xff;
        }
        return u64::from(parent) - 1;
    }
    if state < 67 {
        return u64::from(state) - 3;
    }
    0xff
}

// The character of the digit of x that has `left` digits behind it.
fn digit(x: u64, left: usize) -> u8
    requires { left < 16 }
    ensures { result ≡ hex_digit (x / 16 ^ left % 16) }
{
    digits::character(((x >> (4 * left)) % 16) as u8)
}

// Writes x in n digits from place `at` on.
fn put_number(out: &mut [u8], at: usize, n: usize, x: u64)
    requires { (n ≤ 16) × (at + n ≤ length out.old) }
    ensures { out.new ≡ sets out.old at (hex_of n x) }
{
    for k in 0..n {
        out[at + k] = digit(x, n - 1 - k);
    }
}

// Writes a frame from place `at` on: its kind and its number in two digits each, two values in w digits each, and 0a. Gives the place behind it.
fn put_frame(
    out: &mut [u8],
    at: usize,
    w: usize,
    kind: u64,
    number: u64,
    first: u64,
    second: u64,
) -> usize
    requires { (w ≤ 16) × (at + frame_size (even_shape w kind) ≤ length out.old) }
    ensures { Written out.old at (frame (even_shape w kind) number first second) out.new result }
{
    put_number(out, at, 2, kind);
    put_number(out, at + 2, 2, number);
    put_number(out, at + 4, w, first);
    put_number(out, at + 4 + w, w, second);
    let end = at + 4 + w + w;
    out[end] = 10;
    end + 1
}

// Writes what number k adds to the text, and gives the place behind it.
fn write_cell<C: Cells>(out: &mut [u8], at: usize, cells: &C, k: usize) -> usize
    requires { at + length (cell_of C.Kind.kind (C.first cells.now) (C.second cells.now) k) ≤ length out.old }
    ensures { Written out.old at (cell_of C.Kind.kind (C.first cells.now) (C.second cells.now) k) out.new result }
{
    match cells.values(k) {
        Some((first, second)) => put_frame(
            out,
            at,
            C::Kind::DIGITS,
            C::Kind::CODE,
            k as u64,
            first,
            second,
        ),
        None => at,
    }
}

// Writes what all of them add to the text, and gives the place behind it.
pub(crate) fn write_cells<C: Cells>(out: &mut [u8], from: usize, cells: &C) -> usize
    requires { from + length (cells_from (cell_of C.Kind.kind (C.first cells.now) (C.second cells.now)) C.Kind.COUNT 0) ≤ length out.old }
    ensures { Written out.old from (cells_from (cell_of C.Kind.kind (C.first cells.now) (C.second cells.now)) C.Kind.COUNT 0) out.new result }
{
    let mut at = from;
    for k in 0..C::Kind::COUNT {
        at = write_cell(out, at, cells, k);
    }
    at
}

// The length of what number k adds to the text: nothing, or a frame.
fn cell_length<C: Cells>(cells: &C, k: usize) -> usize
    ensures short { result ≤ C.Kind.SIZE }
    ensures whole { result ≡ length (cell_of C.Kind.kind (C.first cells.now) (C.second cells.now) k) }
{
    match cells.values(k) {
        Some(_) => C::Kind::SIZE,
        None => 0,
    }
}

// The length of what all of them add to the text.
pub(crate) fn cells_length<C: Cells>(cells: &C) -> usize
    ensures short { result ≤ C.Kind.COUNT * C.Kind.SIZE }
    ensures whole { result ≡ length (cells_from (cell_of C.Kind.kind (C.first cells.now) (C.second cells.now)) C.Kind.COUNT 0) }
{
    let mut total = 0usize;
    for k in 0..C::Kind::COUNT {
        total += cell_length(cells, k);
    }
    total
}
