// Fields of line texts: words, decimal numbers and hexadecimal digits, read from the front and written at the end.
#![tactic(auto)]

mod laws;
mod printers;
mod readers;
#[cfg(test)]
mod tests;

pub use laws::{numbers_are_read_as_they_are_written, parts_are_read_where_they_stand};
pub use printers::{digit_character, hex_digits, push_decimal, push_hex};
pub use readers::{
    cut, digit_value, expect, number, read_byte, read_hex, read_leading, read_number, read_word,
    split_digits,
};
