//! The words of an instance.

ghost use Rattle.std.specs.Prelude.{◌≡◌, IfOk, MatchOption, false, length, map, vec_len};
ghost use Rattle.std.specs.List.{list_all};
ghost use Rattle.blif_models.specs.ModelFaults.{is_join};
ghost use Rattle.blif_formals.specs.ByNames.{joins_one_of};
ghost use Rattle.blif_formals.specs.Joining.{IsInterface};
ghost use Rattle.blif_formals.specs.Parting.{IsMisjoined, JoinIs, JoinNumbers, JoinsNumber};

use crate::interface::Interface;
use crate::joining::joins_well;
use crate::words::Words;
use job_words::before_byte;
use std::alloc::{AllocError, Global};

/// The formal name and the actual one that a word joins; none where no name stands on one of both sides of its first `=`.
pub fn join_of(word: &[u8]) -> Option<(&[u8], &[u8])>
    ensures { MatchOption result (is_join word.now ≡ false) (λ join. JoinIs word.now join.0.now join.1.now) }
{
    let formal = before_byte(word, b'=');
    let end = formal.len();
    if end == 0 || word.len() - end < 2 {
        return None;
    }
    Some((formal, &word[end + 1..]))
}

/// The number of the formal name that a word joins, if it joins one of these names.
fn formal_in(names: &Words, word: &[u8]) -> Option<u32>
    ensures { MatchOption result (joins_one_of names.now word.now ≡ false) (JoinsNumber names.now word.now) }
{
    let (formal, _actual) = join_of(word)?;
    names.find(formal)
}

/// The numbers of the formal names that words join, if each joins one of these names.
pub fn formals_in(
    alloc: Global,
    names: &Words,
    words: &[&[u8]],
) -> Result<Option<Vec<u32>>, AllocError>
    ensures { IfOk result (λ found. MatchOption found (list_all (joins_one_of names.now) (map (λ word. word.now) words.now) ≡ false) (λ formals. JoinNumbers names.now (map (λ word. word.now) words.now) formals.items)) }
{
    let mut formals = Vec::with_capacity(alloc, words.len())?;
    for word in words {
        match formal_in(names, word) {
            Some(number) => formals.push(number)?,
            None => return Ok(None),
        }
    }
    Ok(Some(formals))
}

/// Whether an instance with these words behind the name of its model joins the model's formal names wrongly, where the model has these
/// names and this interface.
pub fn is_misjoined(
    alloc: Global,
    names: &Words,
    interface: &Interface,
    words: &[&[u8]],
) -> Result<bool, AllocError>
    requires interface { IsInterface interface.now }
    requires many { vec_len interface.now.ports ≡ length names.now }
    ensures { IfOk result (IsMisjoined names.now interface.now (map (λ word. word.now) words.now)) }
{
    match formals_in(alloc, names, words)? {
        Some(formals) => Ok(!joins_well(alloc, interface, &formals)?),
        None => Ok(true),
    }
}
