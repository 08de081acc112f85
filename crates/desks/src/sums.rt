// The sum with a list: of each record its kind, its two numbers and its answer.
use lists::Request;
use trials::sums::folded;

fn folded_request(sum: u64, q: Request) -> u64 {
    let sum = folded(sum, u64::from(q.kind));
    let sum = folded(sum, u64::from(q.x));
    let sum = folded(sum, u64::from(q.y));
    folded(sum, u64::from(q.answer))
}

pub(crate) fn folded_list(start: u64, list: &[Request]) -> u64 {
    list.iter().fold(start, |sum, q| folded_request(sum, *q))
}
