// The values of a chain's rows, tick after tick.
#![tactic(auto)]

pub mod channels;
mod inputs;
pub mod order;
pub mod run;
pub mod tick;
mod values;
