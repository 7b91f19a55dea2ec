// What a done insert writes: the numbers of rows, the new rows, and the answers.
#![tactic(auto)]

pub mod answers;
pub mod numbers;
pub mod puts;
pub mod row;
pub mod whole;
