// The kinds of records that requests are tried on, by the numbers that begin the lines.
#[derive(Clone, Copy, Debug, PartialEq, Eq)]
pub(crate) enum Kind {
    RandomBytes = 0,
    FewNumbers = 1,
    Forest = 2,
    ChangedForest = 3,
    // Walks from an empty bench, among few numbers and instruments or among many.
    NearWalk = 4,
    FarWalk = 5,
}

impl Kind {
    // Whether a new record is due: after 4 requests, or 5 of a sound one. A walk goes on for its 1,000.
    pub(crate) fn is_due(self, turn: u64) -> bool {
        match self {
            Kind::RandomBytes | Kind::FewNumbers | Kind::ChangedForest => turn % 4 == 0,
            Kind::Forest => turn % 5 == 0,
            Kind::NearWalk | Kind::FarWalk => turn == 0,
        }
    }

    // Below which number most requests stay.
    pub(crate) fn numbers(self) -> u32 {
        match self {
            Kind::FewNumbers => 4,
            Kind::NearWalk => 10,
            _ => 64,
        }
    }

    // Below which instrument most requests stay.
    pub(crate) fn instruments(self) -> u32 {
        match self {
            Kind::RandomBytes => 128,
            Kind::FewNumbers => 2,
            Kind::Forest | Kind::ChangedForest => 10,
            Kind::NearWalk => 4,
            Kind::FarWalk => 12,
        }
    }
}
