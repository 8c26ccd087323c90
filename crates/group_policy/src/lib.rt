// Policies that decide which context joins a group: a rule kept beside what is known of it, and the density rule.
#![tactic(auto)]

mod cut;
mod densities;
mod policy;

pub use cut::Cut;
pub use densities::density;
pub use policy::{Policy, Rule};
