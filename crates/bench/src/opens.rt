// The requests that open actions and take locks, in place: the answer, and where it is 0 the change.
ghost use Rattle.rules.specs.Requests.{open_top, open_sub, ask};
ghost use Rattle.rules.specs.ReadWrite.{mode_of};
ghost use Rattle.marks.specs.Answers.{answer_number};
ghost use Rattle.bench.specs.Plays.{Became};

use crate::Bench;
use marks::answers::Answer;
use marks::states::RUNNING;

impl Bench {
    // n becomes a running top action.
    pub(crate) fn run_top(&mut self, n: u32) -> Answer
        ensures { Became self.old (open_top n) (answer_number result) self.new }
    {
        self.open_top_answer(n)?;
        let at = (n % Bench::ACTIONS) as usize;
        self.states[at] = RUNNING;
        Ok(())
    }

    // n becomes a running action with parent p.
    pub(crate) fn run_sub(&mut self, n: u32, p: u32) -> Answer
        ensures { Became self.old (open_sub n p) (answer_number result) self.new }
    {
        self.open_sub_answer(n, p)?;
        let at = (n % Bench::ACTIONS) as usize;
        self.states[at] = RUNNING;
        self.parents[at] = (p % Bench::ACTIONS) as u8 + 1;
        Ok(())
    }

    // a joins the read set of instrument i, or the write set.
    pub(crate) fn join_set(&mut self, is_write: bool, a: u32, i: u32) -> Answer
        ensures { Became self.old (ask (mode_of is_write) a i) (answer_number result) self.new }
    {
        self.ask_answer(is_write, a, i)?;
        let at = (i % Bench::INSTRUMENTS) as usize;
        let number = (a % Bench::ACTIONS) as usize;
        if is_write {
            self.writes[at] = sets::with(self.writes[at], number);
        } else {
            self.reads[at] = sets::with(self.reads[at], number);
        }
        Ok(())
    }
}
