// The bytes of states.
pub const FREE: u8 = 0;

pub const RUNNING: u8 = 1;

pub const COMMITTED: u8 = 2;

// Draining under number 0. Under number h the byte is h more.
pub const DRAINING: u8 = 3;
