// Definitions and laws only: the numbers of sorted rows, and the store that has one row for each tree.
#![tactic(auto)]
