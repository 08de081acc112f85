// The saved form: specs/ defines the text of a bench and which texts say one, and proofs/ has the theorems about them. Here are the kinds of its frames, as
// code has them.
#![tactic(auto)]

ghost use Rattle.std.specs.Prelude.{◌≡◌, ℕ, ◌≤◌};
ghost use Rattle.std.proofs.Common.{refl, lit≤};
ghost use Rattle.forms.specs.Kinds.{Kind, even_shape, frame_size, action, instrument};

// A kind of frame: its code, the digits of each of its two values, its bytes, and how many numbers may have one.
pub trait FrameKind {
    const CODE: u64;

    const DIGITS: usize;

    const SIZE: usize;

    const COUNT: usize;

    ghost CODE: { ℕ };

    ghost DIGITS: { ℕ };

    ghost SIZE: { ℕ };

    ghost COUNT: { ℕ };

    ghost kind: { Kind };

    ghost shaped: { kind.shape ≡ even_shape DIGITS CODE };

    ghost sized: { SIZE ≡ frame_size kind.shape };

    ghost narrow: { DIGITS ≤ 16 };

    ghost few: { COUNT ≤ 128 };
}

// The frames of the 64 numbers.
#[derive(Clone, Copy)]
pub struct Action;

impl FrameKind for Action {
    const CODE: u64 = 0x11;

    const DIGITS: usize = 2;

    const SIZE: usize = 9;

    const COUNT: usize = 64;

    ghost CODE = { 0x11 };

    ghost DIGITS = { 2 };

    ghost SIZE = { 9 };

    ghost COUNT = { 64 };

    ghost kind = { action };

    ghost shaped = { refl };

    ghost sized = { refl };

    ghost narrow = { lit≤ tt };

    ghost few = { lit≤ tt };
}

// The frames of the 128 instruments.
#[derive(Clone, Copy)]
pub struct Instrument;

impl FrameKind for Instrument {
    const CODE: u64 = 0x12;

    const DIGITS: usize = 16;

    const SIZE: usize = 37;

    const COUNT: usize = 128;

    ghost CODE = { 0x12 };

    ghost DIGITS = { 16 };

    ghost SIZE = { 37 };

    ghost COUNT = { 128 };

    ghost kind = { instrument };

    ghost shaped = { refl };

    ghost sized = { refl };

    ghost narrow = { lit≤ tt };

    ghost few = { lit≤ tt };
}
