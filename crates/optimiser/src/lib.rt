// The optimised file of a profile: a plan of the profile, and the profile's file rewritten by it.
#![tactic(auto)]

mod contexts;
mod grants;
mod making;

pub use contexts::{contexts_of_runs_are_near_sites, plans_of_near_sites_choose_near_sites_alone};
pub use grants::{every_grant_is_counted_once, total_grants};
pub use making::{Optimised, optimise};
