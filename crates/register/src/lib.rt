// The operations of the chain register, under one name. Each stands in its own crate with its contract and proof, and asks nothing.
#![tactic(auto)]

pub use checking::{Answer, check};
pub use comparing::compare;
pub use converter::convert;
pub use converts::outcome::Converted;
pub use inserting::{Inserted, insert};
pub use keying::{Written, write_key};
pub use keytest::is_key;
pub use mender::{Mended, mend};
pub use parts::part_of;
pub use runner::run;
pub use sheet::fault::Fault;
pub use sheet::reader::read_sheet;
pub use strict::insert_strict;
