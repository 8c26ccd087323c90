// Small linked executables, for tests and for the program that `gen` writes: code at 0x10100 with its symbols
// and its relocation entries.
#![tactic(auto)]

mod assembly;
mod builder;
mod fields;
mod generator;
mod head;
mod labels;
mod laws;
mod offsets;
mod sections;
mod tables;
#[cfg(test)]
mod tests;

pub use builder::Builder;
pub use generator::generate;
pub use laws::the_words_decode_to_the_listing;
