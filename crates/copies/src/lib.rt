// Words, of one size or another, copied from list to list.
#![tactic(auto)]

ghost use Rattle.std.specs.Prelude.{◌≡◌};
ghost use Rattle.copies.specs.Copies.{words_put, words_from};

// Puts words into a list from a place on, and none where they don't all fit.
pub fn put_words<T: Copy>(words: &mut [T], at: usize, from: &[T])
    ensures { words.new ≡ words_put words.old at from.now }
{
    if words.len() < from.len() {
        return;
    }
    if words.len() - from.len() < at {
        return;
    }
    words[at..at + from.len()].copy_from_slice(from);
}

// So many words of a list from a place on, and blank ones where it doesn't have so many.
#[inline(always)] // keeps the stack that the C header states: one copy of the words less
pub fn words_from<T: Copy, const N: usize>(words: &[T], at: usize, blank: T) -> [T; N]
    ensures { result ≡ words_from N blank words.now at }
{
    if words.len() < N {
        return [blank; N];
    }
    if words.len() - N < at {
        return [blank; N];
    }
    let mut copy = [blank; N];
    copy.copy_from_slice(&words[at..at + N]);
    copy
}
