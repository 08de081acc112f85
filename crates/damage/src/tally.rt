// What loading many texts gave: how often each answer came, how many of the accepted texts were saved again as they were, and a sum over every
// answer and every record handed back.
use bench::Bench;
use marks::answers::{Refusal, number};
use std::io;
use trials::show::line;
use trials::sums::{folded, folded_record};

#[derive(Clone, Copy)]
pub(crate) struct Tally {
    accepted: u64,
    unsound: u64,
    malformed: u64,
    saved_again: u64,
    pub(crate) sum: u64,
}

// Whether saving the bench writes this text and no more.
fn saves_as(b: Bench, text: &[u8]) -> bool {
    let mut buffer = [0u8; 5312];
    let reply = saved::save(b, &mut buffer);
    reply.answer == number(Ok(())) && reply.count == text.len() && buffer.starts_with(text)
}

impl Tally {
    // Nothing counted yet, and the sum so far.
    pub(crate) fn none_yet(sum: u64) -> Tally {
        Tally {
            accepted: 0,
            unsound: 0,
            malformed: 0,
            saved_again: 0,
            sum,
        }
    }

    // Loads a text and counts what that gave.
    pub(crate) fn load(&mut self, text: &[u8]) {
        let loaded = saved::load(text);
        self.sum = folded_record(
            folded(self.sum, u64::from(loaded.answer)),
            true,
            loaded.bench,
        );
        if loaded.answer == number(Ok(())) {
            self.accepted = self.accepted.wrapping_add(1);
            let again = u64::from(saves_as(loaded.bench, text));
            self.saved_again = self.saved_again.wrapping_add(again);
        } else if loaded.answer == number(Err(Refusal::Unsound)) {
            self.unsound = self.unsound.wrapping_add(1);
        } else if loaded.answer == number(Err(Refusal::Malformed)) {
            self.malformed = self.malformed.wrapping_add(1);
        }
    }

    // Writes a line: how long the text was that the line is about, or which block it is, the counts of answers 0, 7 and 8, how many accepted texts
    // were saved again as they were, and the sum.
    pub(crate) fn show(self, rt: &impl Print, of: u64) -> io::Result<()> {
        let counts = [
            self.accepted,
            self.unsound,
            self.malformed,
            self.saved_again,
        ];
        line(rt, of, &counts, self.sum)?;
        Ok(())
    }
}
