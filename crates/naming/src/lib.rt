// A row named by its signature, where all its inputs are named.
#![tactic(auto)]

pub mod naming;
