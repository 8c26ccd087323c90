// A heap's tables and code in memory: in specs/ what the tables' words are for a layout, and what the code
// does at its eight entries; and, as contracts of empty functions, laws of the tables.
#![tactic(auto)]

mod laws;

pub use laws::{first_words_spell_the_first_layout, tables_of_a_small_area};
