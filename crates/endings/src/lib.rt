// How a command ends: the status of the program and the line that says it.
#![tactic(auto)]

mod endings;
mod file_lines;
mod lines;
mod parts;
mod plan_lines;
mod profile_lines;
mod run_lines;

pub use endings::{BadFile, BadPlan, BadProfile, Ending};
pub use lines::{line, status};
pub use parts::Line;

#[cfg(test)]
mod tests;
