// What the operations compute. No other crate adds, multiplies or divides signed numbers.
#![tactic(auto)]

mod exact;
pub mod operations;
