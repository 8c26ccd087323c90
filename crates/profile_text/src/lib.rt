// The text of a profile, read and written.
#![tactic(auto)]

mod distinct;
mod lines;
mod one_answer;
mod reader;
mod refusals;
mod steps;
#[cfg(test)]
mod tests;
mod writer;

pub use one_answer::a_profile_text_has_one_answer;
pub use reader::read_profile;
pub use refusals::ProfileRefusal;
pub use writer::write_profile;
