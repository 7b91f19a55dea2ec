// Laws only: how rounds over classes, and chains of new heads, sort rows into one class for one tree.
#![tactic(auto)]
