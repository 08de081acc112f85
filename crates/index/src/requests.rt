// Requests in place on a bench's arrays, with the index that is kept beside them. Nothing is tested: on the arrays of a sound bench with their index they are the
// steps of the rules.
ghost use Rattle.std.specs.Prelude.{[], ◌≡◌, ◌%◌, ◌<◌, eqb, get_or, if◌then◌else◌};
ghost use Rattle.sets.specs.Sets.{meet};
ghost use Rattle.marks.specs.Answers.{answer_number};
ghost use Rattle.marks.specs.Requests.{code_of, first_of, second_of};
ghost use Rattle.steps.specs.Arrays.{lent};
ghost use Rattle.steps.specs.Steps.{Opened, Asked};
ghost use Rattle.index.specs.Tables.{table};
ghost use Rattle.index.specs.Kept.{line_by, noted, opened, opened_index, RequestKept};

use crate::Index;
use crate::ends::{abort_indexed, commit_indexed};
use crate::quiets::quiet_indexed;
use marks::answers::{Answer, Refusal};
use marks::requests::{Request, writes};
use rows::ACTIONS;
use steps::engine::{ask, open_sub, open_top};

impl Index {
    // Whether one of the running numbers is a child of a.
    fn has_child(&self, running: u64, a: u32) -> bool
        ensures { result ≡ meet (get_or self.now (a % 64) 0) running }
    {
        sets::meet(self.children((a % ACTIONS) as usize), running)
    }

    // n runs, has no children, and stands nowhere.
    fn begin(&mut self, n: usize)
        requires { n < 64 }
        ensures { self.new ≡ opened n self.old }
    {
        self.put_running(sets::with(self.running(), n));
        self.put_children(n, 0);
        self.put_places(n, 0);
    }
}

// Open top.
fn open_top_indexed(states: &mut [u8; 64], index: &mut Index, n: u32) -> Answer
    ensures { Opened 1 n 0 (lent [] states.old []) (answer_number result) (lent [] states.new [])
        × (index.new ≡ (if eqb (answer_number result) 0 then opened_index 1 n 0 index.old else index.old)) }
{
    open_top(states, n)?;
    let at = (n % ACTIONS) as usize;
    index.begin(at);
    index.put_line(at, sets::with(0, at));
    Ok(())
}

// Open sub.
fn open_sub_indexed(
    parents: &mut [u8; 64],
    states: &mut [u8; 64],
    index: &mut Index,
    n: u32,
    p: u32,
) -> Answer
    ensures { Opened 2 n p (lent parents.old states.old []) (answer_number result)
        (lent parents.new states.new [])
        × (index.new ≡ (if eqb (answer_number result) 0 then opened_index 2 n p index.old else index.old)) }
{
    open_sub(parents, states, n, p)?;
    let at = (n % ACTIONS) as usize;
    let up = (p % ACTIONS) as usize;
    index.begin(at);
    index.put_children(up, sets::with(index.children(up), at));
    index.put_line(at, sets::with(index.line(up), at));
    Ok(())
}

// Read or write. Where it is granted, the place of the instrument joins those of a.
fn ask_indexed<'a>(
    parents: &'a [u8; 64],
    states: &'a [u8; 64],
    owners: &mut [u64; 256],
    index: &mut Index,
    busy: bool,
    is_write: bool,
    a: u32,
    i: u32,
) -> Answer
    ensures { Asked is_write «busy» (line_by index.old a) a i
        (lent parents.now states.now owners.old) (answer_number result)
        (lent parents.now states.now owners.new)
        × (index.new ≡ (if eqb (answer_number result) 0 then noted (a % 64) i index.old else index.old)) }
{
    let at = (a % ACTIONS) as usize;
    ask(
        parents,
        states,
        owners,
        busy,
        index.line(at),
        is_write,
        a,
        i,
    )?;
    index.put_places(at, sets::with(index.places(at), (i % 64) as usize));
    Ok(())
}

// A request; where there is none, that is malformed. Reads and writes come first: they are most of a trace.
pub fn request(
    parents: &mut [u8; 64],
    states: &mut [u8; 64],
    owners: &mut [u64; 256],
    index: &mut Index,
    asked: Option<Request>,
) -> Answer
    ensures { RequestKept (code_of asked) (first_of asked) (second_of asked)
        (table parents.old states.old owners.old index.old) (answer_number result)
        (table parents.new states.new owners.new index.new) }
{
    let running = index.running();
    match asked {
        Some(Request::Read(a, i) | Request::Write(a, i)) => {
            let is_write = writes(asked);
            let busy = index.has_child(running, a);
            ask_indexed(parents, states, owners, index, busy, is_write, a, i)
        }
        Some(Request::OpenTop(n)) => open_top_indexed(states, index, n),
        Some(Request::OpenSub(n, p)) => open_sub_indexed(parents, states, index, n, p),
        Some(Request::Commit(a)) => {
            let busy = index.has_child(running, a);
            commit_indexed(parents, states, owners, index, busy, a)
        }
        Some(Request::Abort(a)) => abort_indexed(parents, states, owners, index, a),
        Some(Request::Quiet(a, i)) => quiet_indexed(states, owners, index, a, i),
        None => Err(Refusal::Malformed),
    }
}
