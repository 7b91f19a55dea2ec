// Laws only: how rows are named by their signatures between rounds, and why no rows of one tree are parted by it.
#![tactic(auto)]
