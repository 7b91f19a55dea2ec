// Definitions and laws only: refusals in order, yes-or-no answers, what a write leaves.
#![tactic(auto)]
