// The rewriting of an accepted executable by a plan that fits it.
#![tactic(auto)]

mod data;
mod entries;
mod new_file;
mod patches;
mod places;
mod refusal;
mod text;

pub use new_file::rewrite;
pub use refusal::RewriteRefusal;
