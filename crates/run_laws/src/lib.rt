// Laws of the runs of the symbol machine, as contracts of empty functions: what a turn does by its note, and how the
// blocks that a run grants stand in the chunks of its heap.
#![tactic(auto)]

mod chunks;
mod turns;

pub use chunks::{
    a_block_is_granted_once_and_stays, live_blocks_are_those_of_the_layout,
    live_blocks_in_a_chunk_have_its_owner_as_group,
    the_next_block_in_a_chunk_begins_where_the_last_ends,
};
pub use turns::{a_site_stands_at_its_address, a_turn_does_what_its_note_says};
