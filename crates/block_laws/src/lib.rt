// What a request keeps of a heap's blocks, of its tables and of the bytes in them: laws over the layouts,
// the tables and the cells of symbol memory, as contracts of empty functions.
#![tactic(auto)]

mod laws;

pub use laws::{
    a_block_is_found_by_its_first_granule, a_new_block_stands_apart_from_the_old_ones,
    a_release_takes_one_block_alone, copied_bytes_stand_for_the_cells_of_a_moved_block,
    one_more_address_keeps_what_words_and_bytes_stand_for, tables_depend_on_their_own_words_alone,
    zero_bytes_stand_for_the_cells_of_a_new_block,
};
