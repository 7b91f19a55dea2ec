// Definitions and laws only: an old store taken over into a layout with room for more inputs a row, with all its numbers.
#![tactic(auto)]
