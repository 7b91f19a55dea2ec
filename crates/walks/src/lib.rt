// Definitions and laws only: the breadth-first walk from a row, and the key as rows.
#![tactic(auto)]
