//! The fields of a header.

ghost use Rattle.std.specs.Prelude.{◌≡◌, ◌<◌, ◌^◌, ◌∷◌, [], IfOk, map, pos};
ghost use Rattle.std.specs.List.{list_all};
ghost use Rattle.std.specs.Str.{bytes_eq};
ghost use Rattle.job_words.specs.Text.{integer_value, split_words};
ghost use Rattle.dddmp_text.specs.Fields.{all_fields, field_of, has_form, is_given, is_one_number, is_one_word, number, numbers_of};
ghost use Rattle.dddmp_text.specs.Fields.{same_field, whole_numbers, word_of};
ghost use Rattle.dddmp_text.specs.Reading.{AreIf, is_number_within};

use crate::numbers::{only_number, only_word, values_of};
use edge_bits::List;
use std::alloc::{AllocError, Global};

/// The ten words that are due before `.nodes`.
#[derive(Debug, Clone, Copy, PartialEq, Eq)]
pub enum Field {
    /// `.ver`: DDDMP-2.0.
    Ver,
    /// `.mode`: A, a text.
    Mode,
    /// `.varinfo`: 0 to 4.
    Varinfo,
    /// `.nnodes`: how many node lines there are, with that of the constant.
    Nnodes,
    /// `.nvars`: how many variables there are.
    Nvars,
    /// `.nsuppvars`: on how many of them the roots may depend.
    Nsuppvars,
    /// `.ids`: these.
    Ids,
    /// `.permids`: their positions.
    Permids,
    /// `.nroots`: how many roots there are.
    Nroots,
    /// `.rootids`: their indices.
    Rootids,
}

/// A field that was given, with its numbers.
#[derive(Drop)]
pub struct Given {
    pub field: Field,
    pub numbers: List<i32>,
}

/// A field's lines begin with this word.
fn word_of(field: Field) -> &'static [u8]
    ensures { result.now ≡ word_of field }
{
    match field {
        Field::Ver => b".ver".as_slice(),
        Field::Mode => b".mode".as_slice(),
        Field::Varinfo => b".varinfo".as_slice(),
        Field::Nnodes => b".nnodes".as_slice(),
        Field::Nvars => b".nvars".as_slice(),
        Field::Nsuppvars => b".nsuppvars".as_slice(),
        Field::Ids => b".ids".as_slice(),
        Field::Permids => b".permids".as_slice(),
        Field::Nroots => b".nroots".as_slice(),
        Field::Rootids => b".rootids".as_slice(),
    }
}

/// Whether a field's lines begin with the word.
fn begins(field: Field, word: &[u8]) -> bool
    ensures { result ≡ bytes_eq (word_of field) word.now }
{
    word_of(field) == word
}

/// The fields, in the order in which they are written.
const FIELDS: [Field; 10] = [
    Field::Ver,
    Field::Mode,
    Field::Varinfo,
    Field::Nnodes,
    Field::Nvars,
    Field::Nsuppvars,
    Field::Ids,
    Field::Permids,
    Field::Nroots,
    Field::Rootids,
];

/// The field whose lines begin with the word.
pub fn field_of(word: &[u8]) -> Option<Field>
    ensures { result ≡ field_of word.now }
{
    if begins(Field::Ver, word) {
        Some(Field::Ver)
    } else if begins(Field::Mode, word) {
        Some(Field::Mode)
    } else if begins(Field::Varinfo, word) {
        Some(Field::Varinfo)
    } else if begins(Field::Nnodes, word) {
        Some(Field::Nnodes)
    } else if begins(Field::Nvars, word) {
        Some(Field::Nvars)
    } else if begins(Field::Nsuppvars, word) {
        Some(Field::Nsuppvars)
    } else if begins(Field::Ids, word) {
        Some(Field::Ids)
    } else if begins(Field::Permids, word) {
        Some(Field::Permids)
    } else if begins(Field::Nroots, word) {
        Some(Field::Nroots)
    } else if begins(Field::Rootids, word) {
        Some(Field::Rootids)
    } else {
        None
    }
}

/// Whether a line has this word alone.
fn is_one_word(due: &[u8], line: &[u8]) -> bool
    ensures { result ≡ is_one_word due.now (split_words line.now) }
{
    match only_word(line) {
        Some(word) => word == due,
        None => false,
    }
}

/// No numbers, if the line has its form.
fn none_if(alloc: Global, fits: bool) -> Option<List<i32>>
    ensures { AreIf fits [] result }
{
    if fits { Some(List::new(alloc)) } else { None }
}

/// The list of one number.
fn one_of(alloc: Global, number: u32) -> Result<List<i32>, AllocError>
    requires { number < 2 ^ 31 }
    ensures { IfOk result (λ numbers. numbers ≡ pos number ∷ []) }
{
    let mut numbers = List::new(alloc);
    numbers.push(number as i32)?;
    Ok(numbers)
}

/// The number of a line that has no other word.
fn one_number(alloc: Global, line: &[u8]) -> Result<Option<List<i32>>, AllocError>
    ensures { IfOk result (AreIf (is_one_number (split_words line.now)) (map integer_value (split_words line.now))) }
{
    match only_number(line) {
        Some(number) => Ok(Some(one_of(alloc, number)?)),
        None => Ok(None),
    }
}

/// The number of a line that has no other word, if it is at most so much.
fn number_within(alloc: Global, most: u32, line: &[u8]) -> Result<Option<List<i32>>, AllocError>
    ensures { IfOk result (AreIf (is_number_within most (split_words line.now)) (map integer_value (split_words line.now))) }
{
    let Some(number) = only_number(line) else {
        return Ok(None);
    };
    if number > most {
        return Ok(None);
    }
    Ok(Some(one_of(alloc, number)?))
}

/// The numbers of a field, from what stands behind its word, if that has its form.
pub fn numbers_of(alloc: Global, field: Field, line: &[u8]) -> Result<Option<List<i32>>, AllocError>
    ensures { IfOk result (AreIf (has_form field (split_words line.now)) (numbers_of field (split_words line.now))) }
{
    match field {
        Field::Ver => Ok(none_if(alloc, is_one_word(b"DDDMP-2.0".as_slice(), line))),
        Field::Mode => Ok(none_if(alloc, is_one_word(b"A".as_slice(), line))),
        Field::Varinfo => number_within(alloc, 4, line),
        Field::Ids | Field::Permids => values_of(alloc, line, false),
        Field::Rootids => values_of(alloc, line, true),
        Field::Nnodes | Field::Nvars | Field::Nsuppvars | Field::Nroots => one_number(alloc, line),
    }
}

/// Whether the fields are one.
fn same_field(one: Field, other: Field) -> bool
    ensures { result ≡ same_field one other }
{
    begins(one, word_of(other))
}

/// Whether a field was given.
pub fn is_given(given: &[Given], field: Field) -> bool
    ensures { result ≡ is_given given.now field }
{
    given.iter().any(|known| same_field(known.field, field))
}

/// Whether each field was given.
pub fn are_given(given: &[Given]) -> bool
    ensures { result ≡ list_all (is_given given.now) all_fields }
{
    FIELDS
        .as_slice()
        .iter()
        .all(|field| is_given(given, *field))
}

/// The numbers of a list field.
pub fn numbers_in(given: &[Given], field: Field) -> &[i32]
    ensures { result.now ≡ whole_numbers given.now field }
{
    match given.iter().find(|known| same_field(known.field, field)) {
        Some(known) => known.numbers.as_slice(),
        None => [].as_slice(),
    }
}

/// The number of another field.
pub fn number_in(given: &[Given], field: Field) -> u32
    ensures { result ≡ number given.now field }
{
    match numbers_in(given, field).first() {
        Some(number) => number.unsigned_abs(),
        None => 0,
    }
}
