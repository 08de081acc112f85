// Numbers of a set get another byte in the arrays of parents and states, or leave the sets.
ghost use Rattle.std.specs.Prelude.{◌≡◌};
ghost use Rattle.steps.specs.Changes.{bytes_put, sets_left};

use sets::Members;

// The numbers get another byte in an array of 64.
pub fn put_bytes(bytes: &mut [u8; 64], numbers: u64, byte: u8)
    ensures { bytes.new ≡ bytes_put numbers byte bytes.old }
{
    for k in Members(numbers) {
        bytes[k] = byte;
    }
}

// The numbers that have gone leave all sets of a slice.
pub fn clear_words(words: &mut [u64], gone: u64)
    ensures { words.new ≡ sets_left gone words.old }
{
    for word in words.iter_mut() {
        *word = sets::difference(*word, gone);
    }
}
