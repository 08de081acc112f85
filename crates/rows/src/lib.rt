// The rows of document 01's table, of any bytes: the first that applies is the answer. Those of quiet are in `quiet`.
#![tactic(auto)]

pub mod quiet;

ghost use Rattle.std.specs.Prelude.{◌≡◌, ℕ};
ghost use Rattle.sets.specs.Sets.{member};
ghost use Rattle.marks.specs.Answers.{answer_number};
ghost use Rattle.rows.specs.Rows.{open_top_row, open_sub_row, commit_row, abort_row, ask_row, busy_in, line_for, held_for};

use heirs::held::all_held;
use marks::answers::{Answer, Refusal};
use marks::states::{FREE, RUNNING};
use tree::children::running_child;
use tree::line_of;

// How many action numbers there are, and how many instruments.
pub const ACTIONS: u32 = 64;

pub const INSTRUMENTS: u32 = 128;

// The rows of `open top n`.
pub fn open_top_row(states: &[u8; 64], n: u32) -> Answer
    ensures { answer_number result ≡ open_top_row states.now n }
{
    if ACTIONS <= n {
        return Err(Refusal::NoSuchAction);
    }
    if states[n as usize] != FREE {
        return Err(Refusal::NotFree);
    }
    Ok(())
}

// The rows of `open sub n under p`.
pub fn open_sub_row(states: &[u8; 64], n: u32, p: u32) -> Answer
    ensures { answer_number result ≡ open_sub_row states.now n p }
{
    if ACTIONS <= n {
        return Err(Refusal::NoSuchAction);
    }
    if ACTIONS <= p {
        return Err(Refusal::NoSuchAction);
    }
    if states[n as usize] != FREE {
        return Err(Refusal::NotFree);
    }
    if states[p as usize] != RUNNING {
        return Err(Refusal::NotRunning);
    }
    Ok(())
}

// The rows of `commit a`, where `busy` says whether a has a running child.
pub fn commit_row(states: &[u8; 64], busy: bool, a: u32) -> Answer
    ensures { answer_number result ≡ commit_row states.now «busy» a }
{
    if ACTIONS <= a {
        return Err(Refusal::NoSuchAction);
    }
    if states[a as usize] != RUNNING {
        return Err(Refusal::NotRunning);
    }
    if busy {
        return Err(Refusal::HasRunningChild);
    }
    Ok(())
}

// The rows of `abort a`.
pub fn abort_row(states: &[u8; 64], a: u32) -> Answer
    ensures { answer_number result ≡ abort_row states.now a }
{
    if ACTIONS <= a {
        return Err(Refusal::NoSuchAction);
    }
    if states[a as usize] != RUNNING {
        return Err(Refusal::NotRunning);
    }
    Ok(())
}

// The line that is handed over; where it is empty, it is gathered going up from a.
fn whole_line(parents: &[u8; 64], line: u64, a: usize) -> u64
    ensures { (k : ℕ) → member result k ≡ line_for parents.now line a k }
{
    if line != 0 {
        return line;
    }
    line_of(parents, a)
}

// Whether the owners are held in the line: those of the line itself are.
fn held<'a>(parents: &'a [u8; 64], states: &'a [u8; 64], line: u64, owners: u64, a: usize) -> bool
    ensures { result ≡ held_for parents.now states.now line owners a }
{
    if sets::within(owners, line) {
        return true;
    }
    let whole = whole_line(parents, line, a);
    all_held(parents, states, whole, owners)
}

// The rows of `read a, i` and `write a, i`, where `owners` are the numbers in the sets of the conflicting modes at instrument i, and `line` is a with its ancestors,
// or empty where they are not known.
pub fn ask_row<'a>(
    parents: &'a [u8; 64],
    states: &'a [u8; 64],
    busy: bool,
    line: u64,
    owners: u64,
    a: u32,
    i: u32,
) -> Answer
    ensures { answer_number result ≡ ask_row states.now «busy» (held_for parents.now states.now line owners a) a i }
{
    if ACTIONS <= a {
        return Err(Refusal::NoSuchAction);
    }
    if INSTRUMENTS <= i {
        return Err(Refusal::NoSuchInstrument);
    }
    commit_row(states, busy, a)?;
    if !held(parents, states, line, owners, a as usize) {
        return Err(Refusal::NotGranted);
    }
    Ok(())
}

// The same, with what they have to know of a looked up in the arrays.
pub fn looked_up_ask_row<'a>(
    parents: &'a [u8; 64],
    states: &'a [u8; 64],
    owners: u64,
    a: u32,
    i: u32,
) -> Answer
    ensures { answer_number result ≡ ask_row states.now (busy_in parents.now states.now a)
        (held_for parents.now states.now 0 owners a) a i }
{
    let busy = running_child(parents, states, (a % ACTIONS) as u8 + 1);
    ask_row(parents, states, busy, 0, owners, a, i)
}
