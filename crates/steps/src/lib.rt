// Requests on the arrays of a bench in place, of any bytes and words: each does something definite, which on the arrays of a sound bench is the step of the rules.
#![tactic(auto)]

pub mod clear;
pub mod draining;
pub mod engine;
pub mod words;
