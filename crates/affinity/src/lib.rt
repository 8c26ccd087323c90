// How often blocks of two contexts are accessed near each other, counted access by access.
#![tactic(auto)]

mod counting;
mod edges;
mod entries;
mod grants;
mod laws;
mod pushes;
mod ring;
#[cfg(test)]
mod tests;

pub use laws::{a_new_number_is_one_more, lists_stay_legal_event_by_event};
pub use pushes::Affinity;
