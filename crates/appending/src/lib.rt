// The rows of a converted sheet: put in order, their length reckoned, and written. The sheet's own rows come first and keep their places.
#![tactic(auto)]

pub mod order;
pub mod places;
pub mod result;
