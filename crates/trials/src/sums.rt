// Sums that tell one run of many requests or texts from another: each further value counts with all that came before it.
ghost use Rattle.std.specs.Prelude.{◌≡◌};
ghost use Rattle.trials.specs.Sums.{with_value, with_word, with_place, with_number, with_sets, with_record, with_bytes};

use bench::Bench;

// The sum with a further value below 4,294,967,296.
pub fn folded(sum: u64, value: u64) -> u64
    ensures { result ≡ with_value sum value }
{
    (sum % 4294967291 * 31 + value % 4294967296) % 4294967291
}

// The sum with a word, its lower half first.
fn folded_word(sum: u64, word: u64) -> u64
    ensures { result ≡ with_word sum word }
{
    folded(folded(sum, word % 4294967296), word / 4294967296)
}

// The sum with a place and its two values, or as it was where both are 0.
fn folded_place(sum: u64, place: usize, first: u64, second: u64) -> u64
    ensures { result ≡ with_place sum place first second }
{
    if first == 0 && second == 0 {
        return sum;
    }
    folded_word(folded_word(folded(sum, place as u64), first), second)
}

// The sum with a number's parent and state.
fn folded_number(sum: u64, sparse: bool, n: usize, parent: u8, state: u8) -> u64
    ensures { result ≡ with_number sparse n parent state sum }
{
    if sparse {
        return folded_place(sum, n, u64::from(parent), u64::from(state));
    }
    folded(folded(sum, u64::from(parent)), u64::from(state))
}

// The sum with an instrument's sets.
fn folded_sets(sum: u64, sparse: bool, i: usize, reads: u64, writes: u64) -> u64
    ensures { result ≡ with_sets sparse i reads writes sum }
{
    if sparse {
        return folded_place(sum, i, reads, writes);
    }
    folded_word(folded_word(sum, reads), writes)
}

// The sum with a whole record: parents and states number by number, then the sets instrument by instrument. A sparse sum passes over what is 0 and
// counts the place of what isn't, so the places are counted here.
pub fn folded_record(start: u64, sparse: bool, b: Bench) -> u64
    ensures { result ≡ with_record start sparse b }
{
    let mut sum = start;
    for n in 0..64usize {
        sum = folded_number(sum, sparse, n, b.parents[n], b.states[n]);
    }
    for i in 0..128usize {
        sum = folded_sets(sum, sparse, i, b.reads[i], b.writes[i]);
    }
    sum
}

// The sum of a buffer's bytes.
pub fn folded_bytes(bytes: &[u8]) -> u64
    ensures { result ≡ with_bytes bytes.now }
{
    bytes
        .iter()
        .fold(0, |sum, byte| folded(sum, u64::from(*byte)))
}
