// One round: each row goes with the rows of its old class that have its signature.
#![tactic(auto)]

pub mod chain;
pub mod round;
pub mod settle;
