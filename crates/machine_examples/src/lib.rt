// Small programs, run by computation: their new files, their runs on both machines and single turns,
// as theorems in proofs/.
#![tactic(auto)]
