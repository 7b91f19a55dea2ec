// A walk's rows written as a sheet's bytes: the rows of the queue in its order, each input as its place in the queue.
#![tactic(auto)]

pub mod bytes;
pub mod reads;
pub mod sheets;
