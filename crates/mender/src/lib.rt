// Mending an old store.
#![tactic(auto)]

pub mod mending;

pub use mending::{Mended, mend, mend_in};
