//! How texts are read: hexadecimal words, numbers, the words of a line, the lines of a text.
//!
//! A format that goes line by line is a `LineFormat`, read by `read_lines`, or by `read_whole` where its
//! text may end too early; one whose lines each say a value by their words alone is a `RowFormat`, read
//! by `read_rows`.
#![tactic(auto)]

mod hex_words;
mod line_words;
mod lines;
mod numbers;
mod rows;

pub use hex_words::{hex_array, hex_fills, hex_into, hex_list, hex16, hex32};
pub use line_words::{cut, few_words, next_word, words};
pub use lines::{
    LineFault, LineFormat, TextFault, WholeFormat, first_line, read_lines, read_whole, split_lines,
};
pub use numbers::{count_below, decimal, decimal_below, number, number_below, number32};
pub use rows::{RowFormat, read_rows};
