// The holes of a heap's fallback: in specs/ the fragments that place a block in the first hole that is long
// enough and that release a block; here their builders and, as contracts of empty functions, what they do
// to the tables.
#![tactic(auto)]

mod laws;
mod placing;
mod releasing;

pub use laws::{
    fragments_of_holes_have_code, the_first_hole_that_is_long_enough_is_taken,
    the_released_block_becomes_a_hole,
};
pub use placing::first_fit;
pub use releasing::release_low;
