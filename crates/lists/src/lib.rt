// Thirty-two requests in one call (document 02, order 3): a list of request records is played, each on the bench that the one before it left, and each answer is
// written into its place. The rules stand in the single request alone.
#![tactic(auto)]

ghost use Rattle.lists.specs.Listed.{ReturnsOne, ReturnsList};

use bench::{Bench, Reply};
use marks::answers::{Refusal, number};
use marks::requests;

// How many requests a list has at most.
pub const LONGEST: usize = 32;

// A request record, as document 02 shapes it: its kind, which is the frame's code and may be any byte, two numbers, a spare one ignored, and a place for the answer's number.
#[derive(Clone, Copy)]
pub struct Request {
    pub kind: u8,
    pub x: u32,
    pub y: u32,
    pub answer: u8,
}

// A request by itself, in place: 8 where its kind is no request's, whatever the bench is, and else what the bench's request of its kind is answered.
fn play_in_place(bench: &mut Bench, request: Request) -> u8
    ensures { ReturnsOne bench.old request (record { bench = bench.new; answer = result }) }
{
    let answer = match requests::Request::framed(request.kind, request.x, request.y) {
        Some(asked) => bench.make(asked),
        None => Err(Refusal::Malformed),
    };
    number(answer)
}

// The same by value.
pub fn play_one(mut bench: Bench, request: Request) -> Reply
    ensures { ReturnsOne bench request result }
{
    let answer = play_in_place(&mut bench, request);
    Reply { bench, answer }
}

// A list in one call: 11 where it is longer than 32, and list and bench stay; else 0, with an answer in each place and the bench that the last request left.
pub fn play_list(mut bench: Bench, list: &mut [Request]) -> Reply
    ensures { ReturnsList bench list.old result list.new }
{
    if LONGEST < list.len() {
        return Reply {
            bench,
            answer: number(Err(Refusal::TooLong)),
        };
    }
    for request in list.iter_mut() {
        request.answer = play_in_place(&mut bench, *request);
    }
    Reply {
        bench,
        answer: number(Ok(())),
    }
}

// What a list by value hands back: the reply to the call, and the list with its answers.
#[derive(Clone, Copy)]
pub struct Played {
    pub reply: Reply,
    pub list: [Request; 32],
}

// A list of 32 by value, for a caller that lends nothing.
pub fn play_array(bench: Bench, mut list: [Request; 32]) -> Played
    ensures { ReturnsList bench list result.reply result.list }
{
    let reply = play_list(bench, &mut list);
    Played {
        reply: reply,
        list: list,
    }
}
