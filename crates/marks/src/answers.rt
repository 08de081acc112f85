// The answers to requests. A request is accepted, or refused for one of these reasons. Outside, an answer is a number: 0, or the reason's.
ghost use Rattle.std.specs.Prelude.{◌≡◌};
ghost use Rattle.marks.specs.Answers.{Decodes, answer_number};

// Why a request, a line, a save or a list is refused.
#[derive(Clone, Copy, Debug, PartialEq, Eq)]
pub enum Refusal {
    // An action number is above 63.
    NoSuchAction = 1,
    // The instrument is above 127.
    NoSuchInstrument = 2,
    // Open: the number to open isn't free.
    NotFree = 3,
    // The acting number isn't running.
    NotRunning = 4,
    // Read, write, commit: the acting number has a running child.
    HasRunningChild = 5,
    // Read, write: not granted by Moss's rule.
    NotGranted = 6,
    // The record isn't sound.
    Unsound = 7,
    // The line, the frame or the saved text is malformed.
    Malformed = 8,
    // Save: the buffer is shorter than the text.
    NoRoom = 9,
    // Quiet: the action isn't draining under itself, or its group isn't in the instrument's sets.
    NotDraining = 10,
    // A list in one call: it is longer than 32.
    TooLong = 11,
}

// A number that is no refusal's: 0, and those above 11.
#[derive(Clone, Copy, Debug, PartialEq, Eq)]
pub struct NoRefusal(pub u8);

// The refusal with this number.
impl TryFrom<u8> for Refusal {
    type Error = NoRefusal;

    ghost try_from_gives = { Decodes };

    fn try_from(number: u8) -> Result<Self, NoRefusal> {
        match number {
            1 => Ok(Refusal::NoSuchAction),
            2 => Ok(Refusal::NoSuchInstrument),
            3 => Ok(Refusal::NotFree),
            4 => Ok(Refusal::NotRunning),
            5 => Ok(Refusal::HasRunningChild),
            6 => Ok(Refusal::NotGranted),
            7 => Ok(Refusal::Unsound),
            8 => Ok(Refusal::Malformed),
            9 => Ok(Refusal::NoRoom),
            10 => Ok(Refusal::NotDraining),
            11 => Ok(Refusal::TooLong),
            _ => Err(NoRefusal(number)),
        }
    }
}

pub type Answer = Result<(), Refusal>;

// The number of an answer that accepts.
pub const ACCEPTED: u8 = 0;

// The answer's number.
pub fn number(answer: Answer) -> u8
    ensures { result ≡ answer_number answer }
{
    match answer {
        Ok(()) => ACCEPTED,
        Err(refusal) => refusal as u8,
    }
}
