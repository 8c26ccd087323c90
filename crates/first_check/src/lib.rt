// The first check that refuses: in specs/ the first refusal of some checks, numbers or items, and what a call says
// of it, in proofs/ what follows where none refuses, and a law as the contract of an empty function.
#![tactic(auto)]

mod laws;

pub use laws::the_first_number_that_passes_is_found;
