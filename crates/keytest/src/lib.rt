// Whether bytes are a key.
#![tactic(auto)]

pub mod order;
pub mod plain;
mod question;

pub use question::is_key;
