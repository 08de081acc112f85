// Digits and frames at a place of a text, and the two values that a frame has.
ghost use Rattle.std.specs.Prelude.{◌≡◌, ◌+◌, ◌%◌, ◌≤◌, length};
ghost use Rattle.forms.specs.Kinds.{even_shape};
ghost use Rattle.forms.specs.WellShaped.{digit_of, number_at, frame_at, head_at};
ghost use Rattle.loading.specs.Fields.{fields_at};

// Whether n digits and a 0a stand in the text from place `at` on.
fn frame_at(text: &[u8], at: usize, n: usize) -> bool
    ensures { result ≡ frame_at text.now at n }
{
    if text.len() <= at {
        return false;
    }
    if text.len() - at <= n {
        return false;
    }
    // Each byte is tested, with no branch: most texts that have no frame here are all digits.
    let ok = text[at..at + n]
        .iter()
        .fold(true, |ok, c| ok & digits::value(*c).is_some());
    ok & (text[at + n] == b'\n')
}

// The number that n digits write.
fn number_at(text: &[u8], at: usize, n: usize) -> u64
    requires { (at + n ≤ length text.now) × (n ≤ 16) }
    ensures { result ≡ number_at text.now at n }
{
    let mut number: u64 = 0;
    for c in &text[at..at + n] {
        number = number * 16 + u64::from(digits::value(*c).unwrap_or(0));
    }
    number
}

// Whether a frame with values of w digits stands there that begins with the two bytes `kind` and k.
fn headed(text: &[u8], at: usize, w: usize, kind: u64, k: usize) -> bool
    requires { w ≤ 16 }
    ensures { result ≡ head_at (even_shape w kind) text.now at k }
{
    if !frame_at(text, at, 4 + w + w) {
        return false;
    }
    let first = number_at(text, at, 2);
    let second = number_at(text, at + 2, 2);
    (first == kind) & (second == k as u64)
}

// The two values of a frame.
#[derive(Clone, Copy)]
pub(crate) struct Fields {
    pub(crate) first: u64,
    pub(crate) second: u64,
}

// The values of the frame of `kind` and k, of w digits each; none where it doesn't stand there.
pub(crate) fn fields_at(text: &[u8], at: usize, w: usize, kind: u64, k: usize) -> Option<Fields>
    requires { w ≤ 16 }
    ensures { result ≡ fields_at (even_shape w kind) text.now at k }
{
    if !headed(text, at, w, kind, k) {
        return None;
    }
    Some(Fields {
        first: number_at(text, at + 4, w),
        second: number_at(text, at + (4 + w), w),
    })
}
