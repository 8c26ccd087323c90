// The flat machine, which runs a file's bytes as given: definitions in specs/ and, as contracts of empty
// functions, laws of its memory and of its turns.
#![tactic(auto)]

mod laws;

pub use laws::{
    bytes_are_read_where_they_stand, ranges_say_what_may_be_accessed,
    stores_change_their_bytes_alone, turns_follow_one_another,
};
