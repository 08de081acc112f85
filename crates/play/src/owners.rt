// The owners' words of a record: the read sets of the 128 instruments and then the write sets.
ghost use Rattle.std.specs.Prelude.{◌≡◌, length};
ghost use Rattle.play.specs.Known.{OwnersOf};

use copies::put_words;

// Where the write sets begin.
pub(crate) const WRITES: usize = 128;

pub(crate) fn owners_of<'a>(reads: &'a [u64; 128], writes: &'a [u64; 128]) -> [u64; 256]
    requires { (length reads.now ≡ 128) × (length writes.now ≡ 128) }
    ensures { OwnersOf reads.now writes.now result }
{
    let mut owners = [0u64; 256];
    put_words(&mut owners, 0, reads);
    put_words(&mut owners, WRITES, writes);
    owners
}
