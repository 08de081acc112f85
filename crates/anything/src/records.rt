// The records that requests are tried on: of random bytes, nearly sound, sound, and sound but for one change.
use crate::forests::forest;
use crate::kinds::Kind;
use bench::Bench;
use trials::draw::Draws;

// A word of a drawn number.
fn word(x: u64) -> u64 {
    x % 2147483647 * 8589934583
}

// Every byte and every word is drawn.
fn random_bytes(draws: &mut Draws) -> Bench {
    let mut b = Bench::empty();
    for (parent, state) in b.parents.iter_mut().zip(&mut b.states) {
        *parent = (draws.next() % 256) as u8;
        *state = (draws.next() % 256) as u8;
    }
    for (reads, writes) in b.reads.iter_mut().zip(&mut b.writes) {
        *reads = word(draws.next());
        *writes = word(draws.next());
    }
    b
}

// The byte of number n's state: free, running or committed, or in four cases of eight draining, in three of them under itself.
fn few_state(n: u8, x: u64) -> u8 {
    match x % 8 {
        0 => 0,
        1 | 2 => 1,
        3 => 2,
        4..=6 => n % 64 + 3,
        _ => (x / 8 % 3) as u8 + 3,
    }
}

// Numbers 0 to 2 with drawn states and parents, sound or not, and drawn sets of instrument 0.
fn few_numbers(draws: &mut Draws) -> Bench {
    let mut b = Bench::empty();
    for n in 0..3u8 {
        b.states[usize::from(n)] = few_state(n, draws.next());
        let x = draws.next();
        if x % 5 == 0 {
            b.parents[usize::from(n)] = (x / 5 % 4) as u8;
        }
    }
    let x = draws.next();
    if x % 2 == 0 {
        b.reads[0] = x / 2 % 8;
    }
    let x = draws.next();
    if x % 4 == 0 {
        b.writes[0] = x / 4 % 8;
    }
    b
}

// A parent's byte: any up to 67, or one of those around 64, the last that names a number.
fn parent_byte(x: u64) -> u8 {
    if x % 2 == 0 {
        return (x / 2 % 68) as u8;
    }
    (x / 2 % 8) as u8 + 60
}

// A state's byte: any up to 69, of which the last three mean nothing, or one of the first five.
fn state_byte(x: u64) -> u8 {
    if x % 2 == 0 {
        return (x / 2 % 70) as u8;
    }
    (x / 2 % 5) as u8
}

// A sound record with one byte or one word changed, after which it may be sound or not.
fn changed_forest(draws: &mut Draws) -> Bench {
    let mut b = forest(draws);
    let place = draws.next();
    let x = draws.next();
    let number = (place / 4 % 64) as usize;
    let instrument = (place / 4 % 128) as usize;
    match place % 4 {
        0 => b.parents[number] = parent_byte(x),
        1 => b.states[number] = state_byte(x),
        2 => b.reads[instrument] = 1 << (x % 64),
        _ => b.writes[instrument] = 1 << (x % 64),
    }
    b
}

// A record of a kind.
pub(crate) fn record_of(kind: Kind, draws: &mut Draws) -> Bench {
    match kind {
        Kind::RandomBytes => random_bytes(draws),
        Kind::FewNumbers => few_numbers(draws),
        Kind::Forest => forest(draws),
        Kind::ChangedForest => changed_forest(draws),
        Kind::NearWalk | Kind::FarWalk => Bench::empty(),
    }
}
