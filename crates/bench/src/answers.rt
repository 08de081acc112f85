// The answers to requests on a record: 7 where it isn't sound, and else the first row of document 01's table, or of document 02's for quiet, that applies.
ghost use Rattle.std.specs.Prelude.{◌≡◌, cond};
ghost use Rattle.rules.specs.Sound.{sound};
ghost use Rattle.rules.specs.Requests.{open_top, open_sub, ask, commit, abort};
ghost use Rattle.rules.specs.Answers.{answer_of};
ghost use Rattle.rules.specs.ReadWrite.{read_write, mode_of};
ghost use Rattle.views.specs.Owners.{Standing};
ghost use Rattle.marks.specs.Answers.{answer_number};
ghost use Rattle.bench.specs.Record.{viewed};
ghost use Rattle.bench.specs.Draining.{DrainByte, quiet_found};

use crate::Bench;
use heirs::owners::conflicting;
use marks::answers::{Answer, Refusal};
use rows::quiet::quiet_row;
use rows::{abort_row, commit_row, looked_up_ask_row, open_sub_row, open_top_row};
use steps::draining::aborted_byte;
use tree::children::running_child;

impl Bench {
    // All numbers that stand in a read set or in a write set.
    pub fn standing(&self) -> u64
        ensures { Standing self.now.reads self.now.writes result }
    {
        sets::union(
            soundness::standing(&self.reads),
            soundness::standing(&self.writes),
        )
    }

    // The state's byte of numbers that were aborted with a: they drain under a while one of them stands in a set, and are free when none does.
    pub fn drain_byte(&self, numbers: u64, a: u32) -> u8
        ensures { DrainByte self.now.reads self.now.writes numbers a result }
    {
        let owners = self.standing();
        aborted_byte(sets::meet(owners, numbers), a)
    }

    // Whether the lent record is sound.
    pub fn sound(&self) -> bool
        ensures { result ≡ sound read_write (viewed self.now) }
    {
        soundness::sound(&self.parents, &self.states, self.standing())
    }

    // A record that isn't sound refuses every request.
    fn only_if_sound(&self) -> Answer
        ensures { answer_number result ≡ cond (sound read_write (viewed self.now)) 0 7 }
    {
        if self.sound() {
            return Ok(());
        }
        Err(Refusal::Unsound)
    }

    pub fn open_top_answer(&self, n: u32) -> Answer
        ensures { answer_number result ≡ answer_of read_write (viewed self.now) (open_top n) }
    {
        self.only_if_sound()?;
        open_top_row(&self.states, n)
    }

    pub fn open_sub_answer(&self, n: u32, p: u32) -> Answer
        ensures { answer_number result ≡ answer_of read_write (viewed self.now) (open_sub n p) }
    {
        self.only_if_sound()?;
        open_sub_row(&self.states, n, p)
    }

    // Read or write: the rows of the numbers in the sets of the conflicting modes.
    pub fn ask_answer(&self, is_write: bool, a: u32, i: u32) -> Answer
        ensures { answer_number result ≡ answer_of read_write (viewed self.now) (ask (mode_of is_write) a i) }
    {
        self.only_if_sound()?;
        let at = (i % Bench::INSTRUMENTS) as usize;
        let owners = conflicting(is_write, self.reads[at], self.writes[at]);
        looked_up_ask_row(&self.parents, &self.states, owners, a, i)
    }

    pub fn commit_answer(&self, a: u32) -> Answer
        ensures { answer_number result ≡ answer_of read_write (viewed self.now) (commit a) }
    {
        self.only_if_sound()?;
        let busy = running_child(&self.parents, &self.states, (a % Bench::ACTIONS) as u8 + 1);
        commit_row(&self.states, busy, a)
    }

    pub fn abort_answer(&self, a: u32) -> Answer
        ensures { answer_number result ≡ answer_of read_write (viewed self.now) (abort a) }
    {
        self.only_if_sound()?;
        abort_row(&self.states, a)
    }

    // Quiet, where `group` are said to be the numbers that drain under a.
    pub fn quiet_answer(&self, group: u64, a: u32, i: u32) -> Answer
        ensures { answer_number result
            ≡ quiet_found self.now.parents self.now.states self.now.reads self.now.writes group a i }
    {
        self.only_if_sound()?;
        let at = (i % Bench::INSTRUMENTS) as usize;
        let here = sets::union(self.reads[at], self.writes[at]);
        quiet_row(&self.states, sets::meet(here, group), a, i)
    }
}
