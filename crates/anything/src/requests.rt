// Drawn requests.
use crate::kinds::Kind;
use bench::Bench;
use marks::requests::Request;
use trials::draw::{Draws, near_or_far};

// The byte of number n's state, 0 where there is no such number.
fn state_of(b: &Bench, n: u32) -> u32 {
    b.states.get(n as usize).copied().map_or(0, u32::from)
}

// Whether number n runs.
fn runs(b: &Bench, n: u32) -> bool {
    state_of(b, n) == 1
}

// Whether number n drains under itself.
fn drains(b: &Bench, n: u32) -> bool {
    state_of(b, n) == n.saturating_add(3)
}

// A number for a request: in three cases of four where n names one, the first that fits from n on, going round.
fn aimed<F: Fn(u32) -> bool + Drop>(n: u32, chance: u64, fits: F) -> u32
    requires { F.IsAlwaysCallable fits }
{
    if n >= 64 || chance % 4 == 0 {
        return n;
    }
    (n..64).chain(0..n).find(|at| fits(*at)).unwrap_or(n)
}

// The next request, of a record of this kind: in sixteen, 1 open top, 4 open sub, 3 read, 3 write, 1 commit, 1 abort and 3 quiet.
pub(crate) fn drawn(b: &Bench, kind: Kind, draws: &mut Draws) -> Request {
    let choice = draws.next();
    let first = draws.next();
    let second = draws.next();
    let chance = draws.next();
    let is_second_far = chance / 64 % 40 == 0;
    let n = near_or_far(first, kind.numbers(), chance % 40 == 0);
    let parent = near_or_far(second, kind.numbers(), is_second_far);
    let i = near_or_far(second, kind.instruments(), is_second_far);
    let running = |n: u32| aimed(n, chance / 4096, |at: u32| runs(b, at));
    match choice % 16 {
        0 => Request::OpenTop(n),
        1..=4 => Request::OpenSub(n, running(parent)),
        5..=7 => Request::Read(running(n), i),
        8..=10 => Request::Write(running(n), i),
        11 => Request::Commit(running(n)),
        12 => Request::Abort(running(n)),
        _ => Request::Quiet(aimed(n, chance / 4096, |at: u32| drains(b, at)), i),
    }
}
