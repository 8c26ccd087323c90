// Plans made of profiles: the groups that a policy makes, and the rows and sites that tell them from other contexts.
#![tactic(auto)]

mod fitting;
mod making;

pub use fitting::plans_of_near_sites_fit;
pub use making::{Planned, make_plan};
