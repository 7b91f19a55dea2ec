// Whether a store is sound, and what every question on stores answers.
#![tactic(auto)]

pub mod distinct;
pub mod look;

pub use look::{Answer, check, look_over};
