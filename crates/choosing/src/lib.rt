// Which classes are taken whole before rows are named: the choice is free, and nothing is believed of it.
#![tactic(auto)]

pub mod choose;
pub mod mark;
pub mod meet;
