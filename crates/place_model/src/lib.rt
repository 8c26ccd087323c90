// A heap's area under a plan: where the grouping allocator puts each block, and what it gives back.
#![tactic(auto)]

mod extents;
mod holes;
mod places;
mod tables;
#[cfg(test)]
mod tests;

pub use place_spec::{Chunk, Hole};
pub use places::{Places, need_of};
