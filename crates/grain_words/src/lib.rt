//! The lines of a text, the words of a line, and what words say by themselves: numbers, positions
//! and labels.
#![tactic(auto)]

mod bytes;
mod characters;
mod labels;
mod laws;
mod lines;
mod numerals;
mod position_words;
mod quoted_texts;
mod words;

pub use bytes::hex_bytes;
pub use characters::character;
pub use labels::Labels;
pub use laws::{
    bytes_are_read, characters_are_read, decimals_are_read, numbers_are_read, plain_texts_are_read,
    quoted_texts_are_read,
};
pub use lines::next_line;
pub use numerals::{begins_letter, integer, number};
pub use position_words::position_word;
pub use quoted_texts::{next_text, quoted, word_text};
pub use words::{
    after_sign, after_text, after_word, integer_here, is_over, is_word, is_word_end, next_word,
    number_here, trim_start,
};
