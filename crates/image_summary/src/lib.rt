// The summary of an accepted executable, as lines of text.
#![tactic(auto)]

mod lines;

pub use lines::summary;
