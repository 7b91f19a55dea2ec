// All rows looked at once, each named if it can be.
#![tactic(auto)]

pub mod scan;
