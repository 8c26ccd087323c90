// The memory of the symbol machine: in specs/, cells of four bytes, plain memory and blocks made of
// them, what loads and stores do to them, and when the flat machine's bytes stand for them.
#![tactic(auto)]

mod laws;

pub use laws::{
    a_copy_byte_by_byte_is_whole, a_load_stands_for_the_flat_load,
    a_store_into_a_list_is_the_store, a_store_keeps_every_region, buffers_are_alike,
    loads_and_stores_are_alike,
};
use sym_value::Whole;

/// What is known of a byte of memory.
#[derive(Clone, Copy, Debug, PartialEq, Eq)]
pub enum Mark {
    /// The byte's number.
    Known(u8),
    /// Nothing.
    Blank,
    /// This byte of a pointer or a return address. The index is below 4 and counts from the lowest.
    Piece { of: Whole, index: u8 },
}
