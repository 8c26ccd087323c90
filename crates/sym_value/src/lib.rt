// The values of the symbol machine: what its registers and its memory hold, what operations and
// conditions are of them, and, in specs/, which words stand for them.
#![tactic(auto)]

mod decisions;
mod laws;
mod live;
mod operations;
#[cfg(test)]
mod tests;

pub use decisions::decide;
pub use laws::{the_area_is_neither_low_nor_high, values_stand_for_their_words};
pub use live::{Life, Live};
pub use operations::apply;

/// A pointer or a return address: what stands in memory byte by byte.
#[derive(Clone, Copy, Debug, PartialEq, Eq)]
pub enum Whole {
    /// An offset in a block, modulo 2^32.
    Ptr { block: u32, offset: u32 },
    /// A return address, as a call left it in ra.
    Ret(u32),
}

/// What a register or a word of memory holds.
#[derive(Clone, Copy, Debug, PartialEq, Eq)]
pub enum Value {
    /// A word.
    Num(u32),
    /// An offset in a block, modulo 2^32.
    Ptr { block: u32, offset: u32 },
    /// A return address, as a call left it in ra.
    Ret(u32),
    /// Some nonzero word with these low four bits, below 16.
    Mix(u8),
    /// Some word with this byte of a pointer or a return address as its lowest one. The index is
    /// below 4 and counts from the lowest byte.
    Part { of: Whole, index: u8 },
    /// A word of which nothing is known.
    Unset,
}
