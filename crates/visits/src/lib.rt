// Rows visited inputs first, each named if it can be.
#![tactic(auto)]

pub mod walk;
