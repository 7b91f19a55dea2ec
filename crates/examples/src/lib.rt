// Theorems only: what the contracts say of the rules' starred examples, reckoned by computation.
#![tactic(auto)]
