// The strict insert.
#![tactic(auto)]

pub mod insertion;
pub mod judge;

pub use insertion::insert_strict;
