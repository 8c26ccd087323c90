// Cells of symbol memory in one flat buffer, with an entry for each byte: what loads and stores of all
// widths do, in a few steps each.
#![tactic(auto)]

mod buffer;
mod entry;
mod loads;
mod stores;
#[cfg(test)]
mod tests;

pub use buffer::CellBuffer;
