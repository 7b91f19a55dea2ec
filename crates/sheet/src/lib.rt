// The sheet file: its bytes read as rows, where inputs point, and the next sheet of a bundle.
#![tactic(auto)]

pub mod bundle;
pub mod fault;
pub mod field;
pub mod front;
pub mod places;
pub mod points;
pub mod reader;
pub mod row;
pub mod version;
