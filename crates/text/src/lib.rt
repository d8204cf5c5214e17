//! Lines of text as bytes: their words, numbers and hex.
#![tactic(auto)]

mod decimal;
mod hexadecimal;
mod words;

pub use decimal::{number, number_reads_back};
pub use hexadecimal::{Hex, hex_array, hex_len, hex_reads_back, read_hex};
pub use words::{Words, count_words, split_word};
