// Sound records: a forest of actions scattered over the table, groups of numbers that drain beside it, and sets.
use bench::Bench;
use trials::draw::Draws;

// The numbers in the order in which they are planted: from one place to the next the number grows by a stride, going round.
#[derive(Clone, Copy)]
struct Order {
    first: u64,
    stride: u64,
}

impl Order {
    // The number at a place.
    fn number(self, place: u64) -> u8 {
        ((self.first % 64 + place % 64 * (self.stride % 64)) % 64) as u8
    }
}

// Puts n under a parent: committed where the parent is, and else in one case of eight.
fn put_sub(b: &mut Bench, n: u8, parent: u8, x: u64) {
    let is_committed = b.states[usize::from(parent % 64)] == 2 || x % 8 == 1;
    b.parents[usize::from(n % 64)] = parent % 64 + 1;
    b.states[usize::from(n % 64)] = if is_committed { 2 } else { 1 };
}

// Puts the number that x draws into a set, if it is in use.
fn put_owner(set: &mut u64, states: &[u8; 64], x: u64) {
    if states[(x % 64) as usize] != 0 {
        *set |= 1 << (x % 64);
    }
}

// Puts up to twelve further numbers, as far as the table has room behind the first `count`, that drain in groups of three, the last perhaps smaller, under the
// group's first, which stands in the read set of an instrument.
fn put_groups(b: &mut Bench, order: Order, count: u64, draws: &mut Draws) {
    let more = draws.next() % 13;
    for k in 0..more.min(64u64.saturating_sub(count)) {
        let first = count % 65 + k - k % 3;
        let head = order.number(first);
        b.states[usize::from(order.number(first + k % 3) % 64)] = head % 64 + 3;
        if k % 3 == 0 {
            let i = (draws.next() % 8) as usize;
            put_owner(&mut b.reads[i], &b.states, u64::from(head));
        }
    }
}

// Up to 64 numbers, scattered over the table, in a forest: from one place of the forest to the next the number grows by a stride, going round,
// and a place's parent stands at most six places before it. Behind them numbers that drain.
fn planted(draws: &mut Draws) -> Bench {
    let count = draws.next() % 65;
    let stride = draws.next() % 32 * 2 + 1;
    let first = draws.next();
    let reach = draws.next() % 6 + 1;
    let order = Order { first, stride };
    let mut b = Bench::empty();
    for place in 0..count {
        let between = draws.next() % reach;
        let x = draws.next();
        let n = order.number(place);
        if between < place && x % 16 != 0 {
            put_sub(&mut b, n, order.number(place - between - 1), x);
        } else {
            b.states[usize::from(n % 64)] = 1;
        }
    }
    put_groups(&mut b, order, count, draws);
    b
}

// A sound record, a forest with sets of one or two numbers in use at instruments 0 to 7.
pub(crate) fn forest(draws: &mut Draws) -> Bench {
    let mut b = planted(draws);
    let states = b.states;
    for (reads, writes) in b.reads.iter_mut().zip(&mut b.writes).take(8) {
        put_owner(writes, &states, draws.next());
        put_owner(reads, &states, draws.next());
        let x = draws.next();
        if x % 3 == 0 {
            put_owner(reads, &states, x);
        }
    }
    b
}
