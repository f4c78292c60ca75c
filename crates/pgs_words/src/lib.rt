//! How values are spelled as words of a line and read again: fields, forms of fields, and their readers.
#![tactic(auto)]

mod cursor;
mod hex;
mod names;
mod numbers;
mod read_error;

pub use cursor::{after, cut, ended, is_word, next, part, parts_ended, word};
pub use hex::{hex_byte_in, hex_digit, hex_in};
pub use names::{dashed, name};
pub use numbers::{number, number_in, positive, positive_byte};
pub use read_error::ReadError;
