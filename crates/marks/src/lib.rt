// What numbers mean: the bytes of states, the answers of document 01's table, the codes of frames.
#![tactic(auto)]

pub mod answers;
pub mod codes;
pub mod requests;
pub mod states;
