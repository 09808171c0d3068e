//! Lines and words.

ghost use Rattle.std.specs.Prelude.{◌≡◌, ◌∷◌, [], ◌<◌, ◌≤◌, ◌^◌, ◌-◌, min, length, IfOk, MatchOption, ◌&&◌, ◌||◌, int_le, int_lt, IfSome, IfNone, Some, None, true, false, ◌==◌};
ghost use Rattle.std.specs.List.{list_all};
ghost use Rattle.std.specs.Str.Parse.{digits_value};
ghost use Rattle.job_words.specs.Text.{is_bit, is_bits, bits_in, bit_word, is_whole, lines_of, split_words, line_words, is_number, is_negative, magnitude, is_integer, integer_value, IsInteger, is_name, is_letter, is_name_byte};
ghost use Rattle.edge_bits.specs.Permanent.{least_value, value_end};
ghost use Rattle.std.specs.Char.{is_ascii_digit};

use crate::cutting::{ByteClass, all_in, before_byte, cut, cut_piece};
use edge_bits::{LEAST_VALUE, List, VALUE_END};
use std::alloc::{AllocError, Global};

/// The first line, and what stands behind its line feed.
pub fn cut_line(text: &[u8]) -> (&[u8], &[u8])
    requires { 0 < length text.now }
    ensures lines { lines_of text.now ≡ result.0.now ∷ lines_of result.1.now }
    ensures shorter { length result.1.now < length text.now }
{
    match cut(text, ByteClass::One(b'\n')) {
        Some(parts) => parts,
        None => (text, &text[text.len()..]),
    }
}

fn letter(b: u8) -> bool
    ensures { result ≡ is_letter b }
{
    (b'A' <= b && b <= b'Z') || (b'a' <= b && b <= b'z')
}

fn name_byte(b: u8) -> bool
    ensures { result ≡ is_name_byte b }
{
    letter(b) || b.is_ascii_digit() || b == b'_'
}

fn all_name_bytes(word: &[u8]) -> bool
    ensures { result ≡ list_all is_name_byte word.now }
{
    word.iter().all(|b| name_byte(*b))
}

/// Whether a word may name a register: 1 to 32 letters, digits and underscores, of which the first is a letter.
#[tactic(auto, unfolding(crate::specs::Text::is_name))]
pub fn is_name(word: &[u8]) -> bool
    ensures { result ≡ is_name word.now }
{
    !word.is_empty() && letter(word[0]) && all_name_bytes(word) && word.len() <= 32
}

/// The first word of a line, and what stands behind it.
#[tactic(auto, unfolding(crate::specs::Text::split_words))]
pub fn first_word(line: &[u8]) -> Option<(&[u8], &[u8])>
    ensures words { MatchOption result (split_words line.now ≡ []) (λ p. split_words line.now ≡ p.0.now ∷ split_words p.1.now) }
    ensures whole { IfSome result (λ p. is_whole p.0.now ≡ true) }
{
    let mut rest = line;
    while !rest.is_empty() {
        let (word, after) = cut_piece(rest, ByteClass::BlankOrReturn);
        if !word.is_empty() {
            return Some((word, after));
        }
        rest = after;
    }
    None
}

/// The part of a line whose words are those of the line; none where a byte may not stand in it.
#[tactic(auto, unfolding(crate::specs::Text::words_of))]
pub fn words(line: &[u8]) -> Option<&[u8]>
    ensures { MatchOption result (line_words line.now ≡ None) (λ part. line_words line.now ≡ Some (split_words part.now)) }
{
    if all_in(line, ByteClass::Ascii) {
        Some(before_byte(line, b'#'))
    } else {
        None
    }
}

const MOST: u64 = 100_000_000_000_000_000;

const MOST_COUNTED: u64 = 4_000_000_000;

fn all_digits(word: &[u8]) -> bool
    ensures { result ≡ list_all is_ascii_digit word.now }
{
    word.iter().all(|b| b.is_ascii_digit())
}

/// Whether the word is a number.
#[tactic(auto, unfolding(crate::specs::Text::is_number))]
pub fn is_number(word: &[u8]) -> bool
    ensures { result ≡ is_number word.now }
{
    !word.is_empty() && all_digits(word) && (word[0] != b'0' || word.len() == 1)
}

/// The value of digits; 10^17 stands for all from there on.
fn digits_value(word: &[u8]) -> u64
    requires { list_all is_ascii_digit word.now ≡ true }
    ensures { result ≡ min (digits_value 10 word.now) 100000000000000000 }
{
    let mut value = 0u64;
    for b in word {
        value = (value * 10 + u64::from(b.saturating_sub(b'0'))).min(MOST);
    }
    value
}

/// The value of a number; four billion stands for all from there on.
pub fn number_value(word: &[u8]) -> u32
    requires { is_number word.now ≡ true }
    ensures { result ≡ min (digits_value 10 word.now) 4000000000 }
{
    digits_value(word).min(MOST_COUNTED) as u32
}

/// Whether the word begins with `-`.
fn is_negative(word: &[u8]) -> bool
    ensures { result ≡ is_negative word.now }
{
    !word.is_empty() && word[0] == b'-'
}

/// What stands behind a `-`, or the whole word.
fn magnitude(word: &[u8]) -> &[u8]
    ensures { result.now ≡ magnitude word.now }
{
    if is_negative(word) { &word[1..] } else { word }
}

/// Whether the word is a whole number.
#[tactic(auto, unfolding(crate::specs::Text::is_integer))]
pub fn is_integer(word: &[u8]) -> bool
    ensures { result ≡ is_integer word.now }
{
    let digits = magnitude(word);
    is_number(digits) && !(is_negative(word) && digits_value(digits) == 0)
}

/// The value of a whole number from -2^46 to 2^46 - 1; none for others.
pub fn integer_value(word: &[u8]) -> Option<i64>
    requires { is_integer word.now ≡ true }
    ensures some { IfSome result (λ w. IsInteger word.now w × ((int_le least_value w && int_lt w value_end) ≡ true)) }
    ensures none { IfNone result ((int_le least_value (integer_value word.now) && int_lt (integer_value word.now) value_end) ≡ false) }
{
    let size = digits_value(magnitude(word)) as i64;
    let value = if is_negative(word) { -size } else { size };
    if LEAST_VALUE <= value && value < VALUE_END {
        Some(value)
    } else {
        None
    }
}

/// Whether the word is `0` or `1`.
pub fn is_bit(word: &[u8]) -> bool
    ensures { result ≡ is_bit word.now }
{
    word == b"0".as_slice() || word == b"1".as_slice()
}

/// Whether the word is a 0-1 word.
pub fn is_bits(word: &[u8]) -> bool
    ensures { result ≡ is_bits word.now }
{
    word == b"none".as_slice() || (!word.is_empty() && all_bits(word))
}

/// The bits of a 0-1 word.
pub fn bits_of(alloc: Global, word: &[u8]) -> Result<List<bool>, AllocError>
    requires { is_bits word.now ≡ true }
    ensures { IfOk result (λ bits. (word.now ≡ bit_word bits) × (length bits ≡ bits_in word.now)) }
{
    let mut bits = List::new(alloc);
    if word == b"none".as_slice() {
        return Ok(bits);
    }
    for b in word {
        bits.push(*b == b'1')?;
    }
    Ok(bits)
}

fn all_bits(word: &[u8]) -> bool
    ensures { result ≡ list_all (λ b. b == 48 || b == 49) word.now }
{
    word.iter().all(|b| *b == b'0' || *b == b'1')
}
