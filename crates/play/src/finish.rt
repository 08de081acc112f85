// The end of a trace's input.
ghost use Rattle.play.specs.Finishing.{FinishedAsBy, FinishedAs, FinishedExplainingAs};

use crate::telling::{Answers, Reasons, Telling};
use crate::{Fed, Player};

impl Player {
    // Ends the input: the missing 0a is fed where a line has begun.
    pub fn finish_telling<T: Telling>(self, out: &mut [u8]) -> Fed
        ensures { FinishedAsBy T.say T.WIDTH self out.old result out.new }
    {
        if self.count == 0 {
            return Fed {
                player: self,
                used: 0,
                written: 0,
            };
        }
        let mut fed = self.tell::<T>(b"\n", out);
        fed.used = 0;
        fed
    }

    // Ends the input: a last line that lacks its 0a is answered if it has at least one character; nothing else. Where the buffer has fewer than three bytes
    // the line stays begun: lend more, and end the input again.
    pub fn finish(self, out: &mut [u8]) -> Fed
        ensures { FinishedAs self out.old result out.new }
    {
        self.finish_telling::<Answers>(out)
    }

    // The same, with the answer's reason. The buffer has to have 23 bytes.
    pub fn finish_explaining(self, out: &mut [u8]) -> Fed
        ensures { FinishedExplainingAs self out.old result out.new }
    {
        self.finish_telling::<Reasons>(out)
    }
}
