//! The words of a command line: the table of commands, and a reader of lines over it.
#![tactic(auto)]

mod forms;
mod laws;
mod lines;
mod places;
mod reading;
mod values;

pub use forms::{Form, Kind, Operand, Setting, all_forms};
pub use laws::{
    what_a_line_gives_fits, words_ask_for_one_thing, words_with_a_wrong_one_are_no_line,
};
pub use places::place_of_value;
pub use values::{Stop, Values, read_words};
