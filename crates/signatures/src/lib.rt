// A row's signature under classes: label, input count, and the classes of the inputs.
#![tactic(auto)]

pub mod entries;
pub mod signature;
