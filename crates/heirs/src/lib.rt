// Who owns what stands in a set by Moss's rules, and whether all owners are held in a line, on any bytes of parents and states.
#![tactic(auto)]

pub mod held;
pub mod owners;
