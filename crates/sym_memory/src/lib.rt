// The memory of the symbol machine in code: plain memory in spans of cells, and blocks of cells by their
// names, each in a flat buffer of its own while it lives.
#![tactic(auto)]

mod block_cells;
mod blocks;
mod image_parts;
mod image_spans;
mod memory;
mod parts;
mod plain;
mod reaching;
mod spans;
mod widths;

pub use memory::SymMemory;
