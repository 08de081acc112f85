// Bytes of a chunk, fed one by one or a whole line at once. The record's soundness is tested once for each chunk: where it is sound, an index is kept beside it from line
// to line, and where it isn't there is none.
ghost use Rattle.std.specs.Prelude.{◌≡◌, ◌*◌, ◌≤◌, length};
ghost use Rattle.std.specs.Option.{is_some};
ghost use Rattle.digits.specs.Digits.{ValuesOfBytes};
ghost use Rattle.lines.specs.Feeding.{FedBytesBy};
ghost use Rattle.marks.specs.Answers.{answer_number};
ghost use Rattle.marks.specs.Requests.{meant_by};
ghost use Rattle.play.specs.Known.{table_with, KnownTable, LineDone};
ghost use Rattle.play.specs.Places.{feeding_at, GoesOn, FedTo};

use crate::telling::{Telling, has_room};
use frames::Begun;
use frames::ends::next_end;
use index::Index;
use index::requests::request;
use marks::answers::{Answer, Refusal};
use marks::requests::Request;

// The line that has begun, and how much has been taken and written.
#[derive(Clone, Copy)]
pub(crate) struct Place {
    pub begun: Begun,
    pub at: usize,
    pub written: usize,
}

// The answer to a line that has ended, and its request done.
fn end_line(
    parents: &mut [u8; 64],
    states: &mut [u8; 64],
    owners: &mut [u64; 256],
    index: &mut Option<Index>,
    asked: Option<Request>,
) -> Answer
    requires { KnownTable (is_some index.old) (table_with parents.old states.old owners.old index.old) }
    ensures { LineDone (is_some index.old) (meant_by asked)
        (table_with parents.old states.old owners.old index.old) (answer_number result)
        (table_with parents.new states.new owners.new index.new)
        × (is_some index.new ≡ is_some index.old) }
{
    match index {
        Some(index) => request(parents, states, owners, index, asked),
        None => match asked {
            Some(_) => Err(Refusal::Unsound),
            None => Err(Refusal::Malformed),
        },
    }
}

// What comes next in the input: the end of a line, or one more character of it.
fn feed_next<T: Telling>(
    parents: &mut [u8; 64],
    states: &mut [u8; 64],
    owners: &mut [u64; 256],
    index: &mut Option<Index>,
    place: Place,
    values: &[u8; 256],
    input: &[u8],
    out: &mut [u8],
) -> Place
    requires { KnownTable (is_some index.old) (table_with parents.old states.old owners.old index.old)
        × ValuesOfBytes values.now × GoesOn T.WIDTH place input.now out.old }
    ensures { FedTo T.say input.now
        (is_some index.old) (table_with parents.old states.old owners.old index.old)
        out.old place
        (is_some index.new) (table_with parents.new states.new owners.new index.new)
        out.new result }
{
    let at = place.at;
    let Some(end) = next_end(values, place.begun, input, at) else {
        return Place {
            begun: place.begun.after(input[at]),
            at: at + 1,
            ..place
        };
    };
    // There is room (`GoesOn`). That is asked here too, before there is an answer: `put` then asks nothing, and an answer's digit is known where the answer is.
    if !has_room(out, place.written, T::WIDTH) {
        return place;
    }
    let answer = end_line(parents, states, owners, index, end.frame.asked);
    let written = T::put(
        parents,
        states,
        owners,
        end.frame.asked,
        answer,
        out,
        place.written,
    );
    Place {
        begun: Begun { count: 0, value: 0 },
        at: at + end.size,
        written,
    }
}

// Bytes that surely have room for what is written for them, from the first on. A turn goes on by what it took, one byte or a whole line, so that no range counts the turns.
pub(crate) fn feed_bytes<T: Telling>(
    parents: &mut [u8; 64],
    states: &mut [u8; 64],
    owners: &mut [u64; 256],
    index: &mut Option<Index>,
    start: Place,
    input: &[u8],
    out: &mut [u8],
) -> Place
    requires { KnownTable (is_some index.old) (table_with parents.old states.old owners.old index.old)
        × (start.at ≡ 0) × (start.written ≡ 0) × (T.WIDTH * length input.now ≤ length out.old) }
    ensures { FedBytesBy T.say
        (feeding_at (table_with parents.old states.old owners.old index.old) start)
        input.now out.old 0
        (feeding_at (table_with parents.new states.new owners.new index.new) result)
        out.new result.written
        × (length owners.new ≡ 256) }
{
    let values = digits::values();
    let mut place = start;
    while place.at < input.len() {
        place = feed_next::<T>(parents, states, owners, index, place, &values, input, out);
    }
    place
}
