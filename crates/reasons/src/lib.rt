// Who stands in the way (document 02, orders 1 and 2): a request's answer from a record, whom it names, and for 6 how that one owns the instrument and whether
// it drains.
#![tactic(auto)]

mod frame;

ghost use Rattle.std.specs.Prelude.{◌≡◌};
ghost use Rattle.rules.specs.ReadWrite.{read_write};
ghost use Rattle.rules.specs.Reasons.{reason_of};
ghost use Rattle.rules.specs.Frames.{framed};
ghost use Rattle.bench.specs.Record.{viewed};
ghost use Rattle.naming.specs.Told.{told};

use bench::Bench;
use frame::answer_of;
use marks::requests::Request;
use naming::{Reason, instrument_of, named_of_request};

// Why the request of a frame gets its answer from this record: the frame's code and its two numbers, a spare one ignored. A code that is no request's
// gets 8.
pub fn explain(bench: Bench, code: u8, x: u32, y: u32) -> Reason
    ensures { result ≡ told (reason_of read_write (viewed bench) (framed code x y)) }
{
    let asked = Request::framed(code, x, y);
    let answer = answer_of(bench, asked);
    let at = instrument_of(asked);
    named_of_request(
        &bench.parents,
        &bench.states,
        bench.reads[at],
        bench.writes[at],
        asked,
        answer,
    )
}
