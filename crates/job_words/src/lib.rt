//! The words of a text: where it is cut into lines and words, and the forms of words.
#![tactic(auto)]

mod cutting;
mod text;

pub use cutting::{ByteClass, all_in, before_byte, cut, cut_piece};
pub use text::{
    bits_of, cut_line, first_word, integer_value, is_bit, is_bits, is_integer, is_name, is_number,
    number_value, words,
};
