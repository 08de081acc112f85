// What the first argument of a measuring program asks for: its first character says a kind of request, and with a minus sign after it no request is made.
ghost use Rattle.std.specs.Prelude.{◌≡◌};
ghost use Rattle.trials.specs.Measures.{kind_of, asked_for};

// The kinds of requests that are measured.
#[derive(Clone, Copy, Debug, PartialEq, Eq)]
pub enum Kind {
    OpenTop,
    OpenSub,
    Read,
    Write,
    Commit,
    // of an action without children
    Abort,
    // of a subaction with descendants
    AbortOfSub,
    // of a top with its whole family
    AbortOfTop,
    // in a chain of 64 actions
    WriteInChain,
    // at one of several instruments
    Quiet,
    // at the last instrument, which frees the number
    LastQuiet,
    // the opens that make the bench
    Opening,
    Other,
}

impl Kind {
    // The kind that a character says.
    fn of(mark: u8) -> Kind
        ensures { result ≡ kind_of mark }
    {
        match mark {
            b'1' => Kind::OpenTop,
            b'2' => Kind::OpenSub,
            b'3' => Kind::Read,
            b'4' => Kind::Write,
            b'5' => Kind::Commit,
            b'6' => Kind::Abort,
            b'7' => Kind::AbortOfSub,
            b'8' => Kind::AbortOfTop,
            b'9' => Kind::WriteInChain,
            b'a' => Kind::Quiet,
            b'b' => Kind::LastQuiet,
            b'o' => Kind::Opening,
            _ => Kind::Other,
        }
    }
}

// What is asked for: a kind, and whether its requests are made.
#[derive(Clone, Copy, Debug, PartialEq, Eq)]
pub struct Measure {
    pub kind: Kind,
    pub made: bool,
}

impl Measure {
    // What an argument asks for.
    pub fn of(argument: &[u8]) -> Measure
        ensures { result ≡ asked_for argument.now }
    {
        match argument {
            [] => Measure {
                kind: Kind::Other,
                made: true,
            },
            [mark] => Measure {
                kind: Kind::of(*mark),
                made: true,
            },
            [mark, sign, ..] => Measure {
                kind: Kind::of(*mark),
                made: *sign != b'-',
            },
        }
    }
}
