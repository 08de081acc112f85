// The rows of document 02's table for quiet, of any bytes.
ghost use Rattle.std.specs.Prelude.{◌≡◌};
ghost use Rattle.marks.specs.Answers.{answer_number};
ghost use Rattle.rows.specs.Rows.{quiet_row};

use crate::{ACTIONS, INSTRUMENTS};
use marks::answers::{Answer, Refusal};
use marks::states::DRAINING;

// The rows of `quiet a, i`, where `stands` says whether one of those that drain under a stands in a set of instrument i.
pub fn quiet_row(states: &[u8; 64], stands: bool, a: u32, i: u32) -> Answer
    ensures { answer_number result ≡ quiet_row states.now «stands» a i }
{
    if ACTIONS <= a {
        return Err(Refusal::NoSuchAction);
    }
    if INSTRUMENTS <= i {
        return Err(Refusal::NoSuchInstrument);
    }
    if states[a as usize] != DRAINING + a as u8 {
        return Err(Refusal::NotDraining);
    }
    if !stands {
        return Err(Refusal::NotDraining);
    }
    Ok(())
}
