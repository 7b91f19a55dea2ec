// An old store taken over into a layout with room for more inputs a row, with all its numbers.
#![tactic(auto)]

pub mod look;
pub mod puts;
pub mod whole;

pub use whole::widen;
