// Definitions and theorems only: the duties of the register, from the contracts of its operations.
#![tactic(auto)]
