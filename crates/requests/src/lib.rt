// The requests that the program `asks` answers, read from their bytes: which arguments each kind has, where they stand, and what a run holds.
#![tactic(auto)]

pub mod argument;
pub mod asked;
pub mod request;
pub mod run;
pub mod whole;
