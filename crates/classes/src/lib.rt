// Rows of a view sorted into classes: one class for one tree. It knows rows only.
#![tactic(auto)]

pub mod alone;
pub mod own;
pub mod runs;
pub mod sort;
