// Between rounds: rows named by the chosen classes, and names made classes again.
#![tactic(auto)]

pub mod hasten;
pub mod lower;
