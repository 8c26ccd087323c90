// Runs of small programs that are tidy, and one that isn't, by computation, as theorems in proofs/.
#![tactic(auto)]
