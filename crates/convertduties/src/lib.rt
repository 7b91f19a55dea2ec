// Definitions and theorems only: what converting an old sheet is for, from the contracts of the converter and of inserting.
#![tactic(auto)]
