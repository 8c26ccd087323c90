// The memory of the flat machine: a file's loaded segments and the stack, as one list of ranges with
// their bytes, with loads, stores and fetches of code, whose words are kept decoded.
#![tactic(auto)]

mod area;
mod decoding;
mod directory;
mod loading;
mod memory;
mod pieces;
mod storage;
mod words;

pub use loading::load;
pub use memory::FlatMem;
