// The sites whose activity tells the members of groups from other contexts, as the rows and sites of a plan.
#![tactic(auto)]

mod making;
mod next_site;
mod selecting;
mod site_sets;

pub use selecting::{Selected, select};
