// The bench: 64 action numbers, 128 instruments, seven requests by Moss's rules. The record and its methods; the requests' answers are in `answers`, and what they
// do in place in `opens` and `ends`.
#![tactic(auto)]

mod answers;
mod ends;
mod opens;

ghost use Rattle.std.specs.Prelude.{◌≡◌};
ghost use Rattle.rules.specs.Sound.{sound};
ghost use Rattle.rules.specs.Requests.{open_top, open_sub, commit, abort, quiet};
ghost use Rattle.rules.specs.ReadWrite.{read_write, read, write};
ghost use Rattle.marks.specs.Answers.{answer_number};
ghost use Rattle.marks.specs.Requests.{meant};
ghost use Rattle.bench.specs.Record.{viewed};
ghost use Rattle.bench.specs.Plays.{IsEmpty, Returns, Became};

use marks::answers::{Answer, number};
use marks::requests::Request;

// Parents and states over 64 numbers, read and write sets over 128 instruments. A parent's byte is 0 for none and else one more than the parent's
// number; a state's byte is 0 free, 1 running, 2 committed, 3 + h draining under number h, with which it was aborted; a set's bit k is number k.
#[derive(Clone, Copy, PartialEq, Eq)]
pub struct Bench {
    pub parents: [u8; 64],
    pub states: [u8; 64],
    pub reads: [u64; 128],
    pub writes: [u64; 128],
}

// What a request hands back, as document 01 shapes it: the next bench and the answer's number.
#[derive(Clone, Copy)]
pub struct Reply {
    pub bench: Bench,
    pub answer: u8,
}

impl Bench {
    // How many action numbers there are, and how many instruments.
    pub const ACTIONS: u32 = 64;

    pub const INSTRUMENTS: u32 = 128;

    // An empty bench: all numbers free and all sets empty.
    pub fn empty() -> Bench
        ensures { IsEmpty result }
    {
        Bench {
            parents: [0u8; 64],
            states: [0u8; 64],
            reads: [0u64; 128],
            writes: [0u64; 128],
        }
    }

    // Whether the record is sound: rules 1 to 4, and of numbers that drain that they have left the tree, that their head drains under itself, and that the group stands in
    // some set.
    pub fn is_sound(self) -> bool
        ensures { result ≡ sound read_write (viewed self) }
    {
        self.sound()
    }

    // Makes a request in place. Refused, it changes nothing.
    pub fn make(&mut self, request: Request) -> Answer
        ensures { Became self.old (meant request) (answer_number result) self.new }
    {
        match request {
            Request::OpenTop(n) => self.run_top(n),
            Request::OpenSub(n, p) => self.run_sub(n, p),
            Request::Read(a, i) => self.join_set(false, a, i),
            Request::Write(a, i) => self.join_set(true, a, i),
            Request::Commit(a) => self.end_with_commit(a),
            Request::Abort(a) => self.end_with_abort(a),
            Request::Quiet(a, i) => self.end_draining(a, i),
        }
    }

    // Makes a request: the bench after it, and the answer's number.
    #[inline(always)] // one copy of the record less
    pub fn request(mut self, request: Request) -> Reply
        ensures { Returns self (meant request) result }
    {
        let answer = self.make(request);
        Reply {
            bench: self,
            answer: number(answer),
        }
    }

    // Makes n a running top action.
    pub fn open_top(self, n: u32) -> Reply
        ensures { Returns self (open_top n) result }
    {
        self.request(Request::OpenTop(n))
    }

    // Makes n a running action with parent p.
    pub fn open_sub(self, n: u32, p: u32) -> Reply
        ensures { Returns self (open_sub n p) result }
    {
        self.request(Request::OpenSub(n, p))
    }

    // Adds a to the read set of instrument i.
    pub fn read(self, a: u32, i: u32) -> Reply
        ensures { Returns self (read a i) result }
    {
        self.request(Request::Read(a, i))
    }

    // Adds a to the write set of instrument i.
    pub fn write(self, a: u32, i: u32) -> Reply
        ensures { Returns self (write a i) result }
    {
        self.request(Request::Write(a, i))
    }

    // A sub becomes committed and no owner set changes; a top and all its descendants become free and leave all sets.
    pub fn commit(self, a: u32) -> Reply
        ensures { Returns self (commit a) result }
    {
        self.request(Request::Commit(a))
    }

    // a and all its descendants, running or committed, leave the tree and stay in the sets: they drain under a where one of them stands in a set, and else become free.
    pub fn abort(self, a: u32) -> Reply
        ensures { Returns self (abort a) result }
    {
        self.request(Request::Abort(a))
    }

    // All numbers that drain under a leave the sets of instrument i, and when none of them is left in any set they become free.
    pub fn quiet(self, a: u32, i: u32) -> Reply
        ensures { Returns self (quiet a i) result }
    {
        self.request(Request::Quiet(a, i))
    }
}
