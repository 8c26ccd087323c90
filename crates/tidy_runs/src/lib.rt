// Laws of tidy runs, as contracts of empty functions: the bits tell which chosen sites are in the shadow stack, and at
// a grant which are on its context.
#![tactic(auto)]

mod laws;

pub use laws::{
    bits_of_a_tidy_run_are_the_chosen_sites_in_the_stack,
    bits_of_near_sites_are_those_on_the_context,
};
