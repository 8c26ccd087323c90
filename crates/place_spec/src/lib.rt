// Where a grouping allocator puts blocks: in specs/ the rules and what they keep, and, as contracts of empty functions,
// laws.
#![tactic(auto)]

mod laws;
mod parts;

pub use laws::{
    a_block_is_refused_exactly_where_nothing_has_room, an_emptied_chunk_is_filled_from_its_front,
    blocks_of_a_chunk_have_its_owner_as_group, layouts_stay_sound, live_blocks_lie_inside,
    live_blocks_share_no_granule, the_next_block_begins_where_the_last_ends,
};
pub use parts::{Chunk, Hole, Spot};
