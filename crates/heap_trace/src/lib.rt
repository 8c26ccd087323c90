// The shadow stack of a run, the contexts and the events of its steps, and its profile.
#![tactic(auto)]

mod contexts;
mod laws;
mod profiles;
mod recording;
mod stack;
mod trace;

pub use laws::{contexts_are_those_of_the_grants_of_a_run, runs_have_legal_events};
pub use profiles::{ProfileEnd, Profiled, profile_run};
pub use trace::Trace;
