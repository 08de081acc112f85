// What the test programs share: drawn numbers, sessions as text, sums over records, the lines that they write, and what a measuring program is asked for.
#![tactic(auto)]

pub mod draw;
pub mod measures;
pub mod runs;
pub mod session;
pub mod show;
pub mod sums;
