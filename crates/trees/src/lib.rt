// Definitions and laws only: rows, graphs, agreement, trees by path, the same tree.
#![tactic(auto)]
