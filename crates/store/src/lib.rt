// The store: its capacity, its shape, a row read by value and a row put.
#![tactic(auto)]

pub mod capacity;
pub mod count;
pub mod row;
pub mod shape;
