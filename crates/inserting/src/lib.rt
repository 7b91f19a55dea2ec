// Inserting a sheet.
#![tactic(auto)]

pub mod insertion;

pub use insertion::{Inserted, insert, insert_sound};
