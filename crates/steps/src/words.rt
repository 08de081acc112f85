// The words of a lent slice of owner sets, whatever its length: the read sets of the 128 instruments and then the write sets.
ghost use Rattle.std.specs.Prelude.{◌≡◌, get_or};
ghost use Rattle.steps.specs.Arrays.{place_of};
ghost use Rattle.steps.specs.Changes.{joined_at};
ghost use Rattle.tables.specs.OneWord.{left_at};

use rows::INSTRUMENTS;

// Where the read set of an instrument stands, and its write set.
pub fn place(is_write: bool, i: u32) -> usize
    ensures { result ≡ place_of is_write i }
{
    let at = (i % INSTRUMENTS) as usize;
    if is_write {
        return 128 + at;
    }
    at
}

// The set at a place; past the end it is empty.
pub(crate) fn word_at(words: &[u64], at: usize) -> u64
    ensures { result ≡ get_or words.now at 0 }
{
    words.get(at).copied().unwrap_or(0)
}

// k joins the set at a place; past the end there is none. By index: of what is written through `get_mut` a proof knows nothing afterwards.
pub(crate) fn join(words: &mut [u64], at: usize, k: usize)
    ensures { words.new ≡ joined_at words.old at k }
{
    if at < words.len() {
        words[at] = sets::with(words[at], k);
    }
}

// The numbers that have gone leave the set at a place; past the end there is none. By index for the same reason.
pub fn leave(words: &mut [u64], at: usize, gone: u64)
    ensures { words.new ≡ left_at words.old at gone }
{
    if at < words.len() {
        words[at] = sets::difference(words[at], gone);
    }
}
