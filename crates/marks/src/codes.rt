// The codes of frames: which request a frame makes.
pub const OPEN_TOP: u8 = 1;

pub const OPEN_SUB: u8 = 2;

pub const READ: u8 = 3;

pub const WRITE: u8 = 4;

pub const COMMIT: u8 = 5;

pub const ABORT: u8 = 6;

pub const QUIET: u8 = 7;
