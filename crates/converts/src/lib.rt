// What converting an old sheet means: definitions and laws, and what the converter answers.
#![tactic(auto)]

pub mod outcome;
