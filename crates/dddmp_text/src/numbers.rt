//! Numbers below 2^31.

ghost use Rattle.std.specs.Prelude.{◌≡◌, ◌≤◌, ◌<◌, ◌^◌, ◌∷◌, [], ◌==◌, IfOk, IfSome, MatchOption, nat_abs, nat_lt, length, map, true, false, pos};
ghost use Rattle.std.specs.List.{list_all};
ghost use Rattle.job_words.specs.Text.{integer_value, is_integer, split_words};
ghost use Rattle.dddmp_text.specs.Fields.{is_one_number, is_small};
ghost use Rattle.dddmp_text.specs.Reading.{AreIf, IsIf, is_form};

use edge_bits::List;
use job_words::{first_word, integer_value, is_integer, is_number, number_value};
use std::alloc::{AllocError, Global};

/// One more than the greatest number of a text.
pub const END: u32 = 1 << 31;

/// The value of a number below 2^31.
pub fn small(word: &[u8]) -> Option<u32>
    ensures value { MatchOption result (is_small word.now ≡ false) (λ n. (is_small word.now ≡ true) × (integer_value word.now ≡ pos n)) }
    ensures below { IfSome result (λ n. n < 2 ^ 31) }
{
    if !is_number(word) {
        return None;
    }
    let value = number_value(word);
    if value < END { Some(value) } else { None }
}

/// The value of a whole number that is below the bound in magnitude.
pub fn integer_below(word: &[u8], bound: u32) -> Option<i32>
    requires form { is_integer word.now ≡ true }
    requires bound { bound ≤ 2 ^ 31 }
    ensures { IsIf (nat_lt (nat_abs (integer_value word.now)) bound) (integer_value word.now) result }
{
    let value = integer_value(word)?;
    if value.unsigned_abs() < u64::from(bound) {
        Some(value as i32)
    } else {
        None
    }
}

/// The value of a number below 2^31, which may have a sign where it says so.
fn value_of(word: &[u8], signed: bool) -> Option<i32>
    ensures { IsIf (is_form signed word.now) (integer_value word.now) result }
{
    if !signed {
        let value = small(word)?;
        return Some(value as i32);
    }
    if is_integer(word) {
        integer_below(word, END)
    } else {
        None
    }
}

/// The values of the words of a line, if each is such a number.
pub fn values_of(alloc: Global, line: &[u8], signed: bool) -> Result<Option<List<i32>>, AllocError>
    ensures { IfOk result (AreIf (list_all (is_form signed) (split_words line.now)) (map integer_value (split_words line.now))) }
{
    let mut values = List::new(alloc);
    let mut rest = line;
    while let Some((word, behind)) = first_word(rest) {
        let Some(value) = value_of(word, signed) else {
            return Ok(None);
        };
        values.push(value)?;
        rest = behind;
    }
    Ok(Some(values))
}

/// The word of a line that has no other.
pub fn only_word(line: &[u8]) -> Option<&[u8]>
    ensures { MatchOption result ((length (split_words line.now) == 1) ≡ false) (λ word. split_words line.now ≡ word.now ∷ []) }
{
    let (word, rest) = first_word(line)?;
    if first_word(rest).is_none() {
        Some(word)
    } else {
        None
    }
}

/// The number of a line that has no other word.
pub fn only_number(line: &[u8]) -> Option<u32>
    ensures value { MatchOption result (is_one_number (split_words line.now) ≡ false) (λ n. (is_one_number (split_words line.now) ≡ true) × (map integer_value (split_words line.now) ≡ pos n ∷ [])) }
    ensures below { IfSome result (λ n. n < 2 ^ 31) }
{
    let word = only_word(line)?;
    small(word)
}
