// Definitions and laws only: a graph of rows written as a sheet, and read back.
#![tactic(auto)]
