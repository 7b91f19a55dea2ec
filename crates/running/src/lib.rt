// Definitions and laws only: what a chain gives, tick after tick, and that equal trees give equal outputs.
#![tactic(auto)]
