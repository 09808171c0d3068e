//! The words behind options and commands: numbers, and bits.

ghost use Rattle.std.specs.Prelude.{◌≡◌, ◌<◌, ◌==◌, ◌||◌, IfOk, map};
ghost use Rattle.std.specs.List.{list_all};
ghost use Rattle.command_words.specs.Values.{is_pattern, number_in, pattern_of, patterns_of};

use edge_bits::{LONGEST_PATTERN, List, Memory};
use job_words::{is_number, number_value};
use std::alloc::Global;

/// The number that a word is, where it is in range.
pub fn number_in(least: u32, most: u32, word: &str) -> Option<u32>
    requires { most < 4000000000 }
    ensures { result ≡ number_in least most word.now }
{
    let digits = word.as_bytes();
    if !is_number(digits) {
        return None;
    }
    let number = number_value(digits);
    if least <= number && number <= most {
        Some(number)
    } else {
        None
    }
}

fn all_bits(word: &[u8]) -> bool
    ensures { result ≡ list_all (λ b. b == 48 || b == 49) word.now }
{
    word.iter().all(|b| *b == b'0' || *b == b'1')
}

fn is_pattern(word: &str) -> bool
    ensures { result ≡ is_pattern word.now }
{
    let bytes = word.as_bytes();
    !bytes.is_empty() && bytes.len() <= LONGEST_PATTERN as usize && all_bits(bytes)
}

fn are_patterns(words: &[&str]) -> bool
    ensures { result ≡ list_all is_pattern (map (λ w. w.now) words.now) }
{
    let mut all = true;
    for word in words {
        all = all & is_pattern(word);
    }
    all
}

/// The bits that the characters of a pattern are.
fn bits_of(alloc: Global, word: &[u8]) -> Result<List<bool>, Memory>
    ensures { IfOk result (λ bits. bits ≡ pattern_of word.now) }
{
    let mut bits = List::new(alloc);
    for b in word {
        bits.push(*b == b'1')?;
    }
    Ok(bits)
}

/// The bits of each word.
fn all_bits_of(alloc: Global, words: &[&str]) -> Result<List<List<bool>>, Memory>
    ensures { IfOk result (λ patterns. patterns ≡ map pattern_of (map (λ w. w.now) words.now)) }
{
    let mut patterns = List::new(alloc);
    for word in words {
        patterns.push(bits_of(alloc, word.as_bytes())?)?;
    }
    Ok(patterns)
}

/// The patterns that the words are, if each is one.
pub fn patterns_of(alloc: Global, words: &[&str]) -> Result<Option<List<List<bool>>>, Memory>
    ensures { IfOk result (λ patterns. patterns ≡ patterns_of (map (λ w. w.now) words.now)) }
{
    if !are_patterns(words) {
        return Ok(None);
    }
    Ok(Some(all_bits_of(alloc, words)?))
}
