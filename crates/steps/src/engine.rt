// Requests in place, on parents, states and one slice of owner sets: the read sets of the 128 instruments and then the write sets. No array is copied, and none is
// tested.
ghost use Rattle.std.specs.Prelude.{[], ◌≡◌, false, eqb};
ghost use Rattle.marks.specs.Answers.{answer_number};
ghost use Rattle.marks.specs.Requests.{code_of, first_of, second_of};
ghost use Rattle.rows.specs.Rows.{busy_in};
ghost use Rattle.steps.specs.Arrays.{lent};
ghost use Rattle.steps.specs.Changes.{freed, aborted, family_freed, family_in};
ghost use Rattle.steps.specs.Steps.{Opened, Asked, Ended, Requested};

use crate::clear::{clear_words, put_bytes};
use crate::draining::{aborted_byte, quiet, stand};
use crate::words::{join, place, word_at};
use family::family_of;
use heirs::owners::conflicting;
use marks::answers::{Answer, Refusal};
use marks::requests::{Request, writes};
use marks::states::{COMMITTED, FREE, RUNNING};
use rows::{ACTIONS, abort_row, ask_row, commit_row, open_sub_row, open_top_row};
use tree::children::running_child;

// Open top. No set is looked at, and no parent.
pub fn open_top(states: &mut [u8; 64], n: u32) -> Answer
    ensures { Opened 1 n 0 (lent [] states.old []) (answer_number result) (lent [] states.new []) }
{
    open_top_row(states, n)?;
    states[(n % ACTIONS) as usize] = RUNNING;
    Ok(())
}

// Open sub. No set is looked at.
pub fn open_sub(parents: &mut [u8; 64], states: &mut [u8; 64], n: u32, p: u32) -> Answer
    ensures { Opened 2 n p (lent parents.old states.old []) (answer_number result)
        (lent parents.new states.new []) }
{
    open_sub_row(states, n, p)?;
    let at = (n % ACTIONS) as usize;
    states[at] = RUNNING;
    parents[at] = (p % ACTIONS) as u8 + 1;
    Ok(())
}

// Read or write, where `busy` says whether a has a running child, and `line` is a with its ancestors, or empty where they are not known. Both sets of the instrument
// are loaded, and the place to store is worked out: nobody can guess which of the two modes comes next.
pub fn ask<'a>(
    parents: &'a [u8; 64],
    states: &'a [u8; 64],
    owners: &mut [u64],
    busy: bool,
    line: u64,
    is_write: bool,
    a: u32,
    i: u32,
) -> Answer
    ensures { Asked is_write «busy» line a i (lent parents.now states.now owners.old)
        (answer_number result) (lent parents.now states.now owners.new) }
{
    let readers = word_at(owners, place(false, i));
    let writers = word_at(owners, place(true, i));
    let held = conflicting(is_write, readers, writers);
    ask_row(parents, states, busy, line, held, a, i)?;
    join(owners, place(is_write, i), (a % ACTIONS) as usize);
    Ok(())
}

// The numbers that have gone become free and leave all sets.
pub fn free(parents: &mut [u8; 64], states: &mut [u8; 64], owners: &mut [u64], gone: u64)
    ensures { lent parents.new states.new owners.new
        ≡ freed gone (lent parents.old states.old owners.old) }
{
    put_bytes(parents, gone, 0);
    put_bytes(states, gone, FREE);
    clear_words(owners, gone);
}

// The family of a leaves the tree. Its numbers drain under a where one of them stands in a set, and else become free; no set changes.
fn drain(parents: &mut [u8; 64], states: &mut [u8; 64], owners: &[u64], family: u64, a: u32)
    ensures { lent parents.new states.new owners.now
        ≡ aborted family a (lent parents.old states.old owners.now) }
{
    put_bytes(parents, family, 0);
    put_bytes(states, family, aborted_byte(stand(owners, family), a));
}

// Commit, where `busy` says whether a has a running child, and `gone` is its family if it has no parent.
pub fn commit(
    parents: &mut [u8; 64],
    states: &mut [u8; 64],
    owners: &mut [u64],
    busy: bool,
    gone: u64,
    a: u32,
) -> Answer
    ensures { Ended 5 «busy» gone a (lent parents.old states.old owners.old)
        (answer_number result) (lent parents.new states.new owners.new) }
{
    commit_row(states, busy, a)?;
    let at = (a % ACTIONS) as usize;
    if parents[at] == 0 {
        free(parents, states, owners, gone);
        return Ok(());
    }
    states[at] = COMMITTED;
    Ok(())
}

// Abort, where `gone` is the family of a.
pub fn abort(
    parents: &mut [u8; 64],
    states: &mut [u8; 64],
    owners: &[u64],
    gone: u64,
    a: u32,
) -> Answer
    ensures { Ended 6 false gone a (lent parents.old states.old owners.now) (answer_number result)
        (lent parents.new states.new owners.now) }
{
    abort_row(states, a)?;
    drain(parents, states, owners, gone, a);
    Ok(())
}

// The family of a.
fn family_in(parents: &[u8; 64], a: u32) -> u64
    ensures { result ≡ family_in parents.now a }
{
    family_of(parents, (a % ACTIONS) as usize)
}

// The family that the commit of a takes out of the tree: a's where a has no parent, and else nobody's.
fn family_of_top(parents: &[u8; 64], a: u32) -> u64
    ensures { result ≡ family_freed 5 a parents.now }
{
    if parents[(a % ACTIONS) as usize] == 0 {
        return family_in(parents, a);
    }
    0
}

// Read or write, with what it has to know of a looked up in the arrays.
fn ask_looked_up<'a>(
    parents: &'a [u8; 64],
    states: &'a [u8; 64],
    owners: &mut [u64],
    is_write: bool,
    a: u32,
    i: u32,
) -> Answer
    ensures { Asked is_write (busy_in parents.now states.now a) 0 a i
        (lent parents.now states.now owners.old) (answer_number result)
        (lent parents.now states.now owners.new) }
{
    let busy = running_child(parents, states, (a % ACTIONS) as u8 + 1);
    ask(parents, states, owners, busy, 0, is_write, a, i)
}

// A request, for a caller that keeps nothing beside the arrays; where there is none, that is malformed.
#[inline(always)] // so that the loop over a list tells a kind apart once
pub fn request(
    parents: &mut [u8; 64],
    states: &mut [u8; 64],
    owners: &mut [u64],
    asked: Option<Request>,
) -> Answer
    ensures { Requested (code_of asked) (first_of asked) (second_of asked)
        (lent parents.old states.old owners.old) (answer_number result)
        (lent parents.new states.new owners.new) }
{
    match asked {
        Some(Request::OpenTop(n)) => open_top(states, n),
        Some(Request::OpenSub(n, p)) => open_sub(parents, states, n, p),
        Some(Request::Read(a, i) | Request::Write(a, i)) => {
            ask_looked_up(parents, states, owners, writes(asked), a, i)
        }
        Some(Request::Commit(a)) => {
            let busy = running_child(parents, states, (a % ACTIONS) as u8 + 1);
            let gone = family_of_top(parents, a);
            commit(parents, states, owners, busy, gone, a)
        }
        Some(Request::Abort(a)) => {
            let gone = family_in(parents, a);
            abort(parents, states, owners, gone, a)
        }
        Some(Request::Quiet(a, i)) => quiet(states, owners, a, i),
        None => Err(Refusal::Malformed),
    }
}
