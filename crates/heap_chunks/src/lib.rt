// Blocks in chunks, as fragments on the words of a heap's tables: the tests that find the group of the
// bits, placing by the first two rules, and release; in specs/ the fragments and what they do.
#![tactic(auto)]

mod chunks;
mod constants;
mod groups;
mod laws;

pub use chunks::{place_high, release_high};
pub use constants::{constant, minus_constant, plus_constant};
pub use groups::group_tests;
pub use laws::{blocks_are_placed_in_chunks, blocks_are_released_in_chunks, groups_are_found};
