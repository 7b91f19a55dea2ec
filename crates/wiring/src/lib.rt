// Where the wires of a sheet lead: 14, 15, and the table of row places turned into the table of where each row is read.
#![tactic(auto)]

pub mod ends;
pub mod first;
pub mod passes;
pub mod skip;
pub mod testing;
