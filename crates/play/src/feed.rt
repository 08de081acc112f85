// Feeding the trace player: bytes of lines in, answers out, or answers with whom they name.
ghost use Rattle.std.specs.Prelude.{◌≡◌, ◌<◌};
ghost use Rattle.lines.specs.Feeding.{taken_by};
ghost use Rattle.play.specs.Feeding.{FedAs, ExplainedAs, FedAsBy};

use crate::owners::{WRITES, owners_of};
use crate::place::{Place, feed_bytes};
use crate::telling::{Answers, Reasons, Telling};
use crate::{Fed, Player};
use bench::Bench;
use copies::words_from;
use frames::Begun;
use index::Index;

// How many bytes of the input are taken at once: all, or as many as surely have room for what is written for them.
fn takes<T: Telling>(input: &[u8], out: &[u8]) -> usize
    ensures { result ≡ taken_by T.WIDTH input.now out.now }
{
    input.len().min(out.len() / T::WIDTH)
}

impl Player {
    // Takes bytes of the input, of any size and cut anywhere, and writes a line for each line that ends in them.
    #[inline(always)] // keeps the stack that the C header states
    pub fn tell<T: Telling>(self, input: &[u8], out: &mut [u8]) -> Fed
        ensures { FedAsBy T.say T.WIDTH self input.now out.old result out.new }
    {
        let used = takes::<T>(input, out);
        let mut parents = self.bench.parents;
        let mut states = self.bench.states;
        let mut owners = owners_of(&self.bench.reads, &self.bench.writes);
        let mut index = None;
        if self.bench.sound() {
            index = Some(Index::of(&parents, &states));
        }
        let start = Place {
            begun: Begun {
                count: self.count,
                value: self.value,
            },
            at: 0,
            written: 0,
        };
        let place = feed_bytes::<T>(
            &mut parents,
            &mut states,
            &mut owners,
            &mut index,
            start,
            &input[..used],
            out,
        );
        Fed {
            player: Player {
                bench: Bench {
                    parents,
                    states,
                    reads: words_from(&owners, 0, 0),
                    writes: words_from(&owners, WRITES, 0),
                },
                count: place.begun.count,
                value: place.begun.value,
            },
            used,
            written: place.written,
        }
    }

    // Takes bytes of the input, of any size and cut anywhere, and writes an answer line for each line that ends in them. What the output may lack room for
    // is not taken: `used` says how much was.
    #[inline(always)] // as above
    pub fn feed(self, input: &[u8], out: &mut [u8]) -> Fed
        ensures { FedAs self input.now out.old result out.new }
    {
        self.tell::<Answers>(input, out)
    }

    // The same, with each answer's reason: whom it names, and for 6 how that one owns the instrument and whether it drains. A line takes up to 23 bytes of the
    // output.
    pub fn explain(self, input: &[u8], out: &mut [u8]) -> Fed
        ensures { ExplainedAs self input.now out.old result out.new }
    {
        self.tell::<Reasons>(input, out)
    }
}
