// The verdict on rows: catalogue operations with their input counts, and no loop without a hold.
#![tactic(auto)]

pub mod catalogue;
pub mod meeting;
pub mod misfit;
pub mod peeling;
pub mod starts;
pub mod states;
pub mod verdict;
