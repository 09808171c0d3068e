//! What instances join, by number.

ghost use Rattle.std.specs.Prelude.{◌≡◌, IfOk, MatchOption, OnOk, false, length, map};
ghost use Rattle.std.specs.List.{list_all};
ghost use Rattle.blif_models.specs.ModelFaults.{is_join};
ghost use Rattle.blif_models.specs.Models.{join_of};
ghost use Rattle.blif_formals.specs.Actuals.{AreActuals, AreJoinNumbers, Keeps};
ghost use Rattle.blif_formals.specs.ByNames.{joins_one_of};
ghost use Rattle.blif_formals.specs.Formals.{words_in};
ghost use Rattle.blif_formals.specs.Words.{AddsOnly};

use crate::parting::{formals_in, join_of};
use crate::words::Words;
use blif_models::NumberedJoin;
use edge_bits::List;
use std::alloc::{AllocError, Global};

/// The numbers of the actual names that words join, in the model in which the instance stands; none where a word joins nothing. Names
/// that are new there get numbers.
pub fn actuals_in(
    alloc: Global,
    names: &mut Words,
    words: &[&[u8]],
) -> Result<Option<List<u32>>, AllocError>
    ensures names { OnOk result (Keeps names.old names.new) }
    ensures added { OnOk result (AddsOnly names.old (map (λ word. (join_of word).actual) (words_in words.now)) names.new) }
    ensures actuals { IfOk result (λ found. MatchOption found (list_all is_join (words_in words.now) ≡ false) (AreActuals names.new (words_in words.now))) }
{
    let mut actuals = List::new(alloc);
    for word in words {
        match join_of(word) {
            None => return Ok(None),
            Some((_formal, actual)) => actuals.push(names.number_of(alloc, actual)?)?,
        }
    }
    Ok(Some(actuals))
}

/// Joins of formal names to actual ones, one by one.
fn joins_from(
    alloc: Global,
    formals: &[u32],
    actuals: &[u32],
) -> Result<List<NumberedJoin>, AllocError>
    requires { length formals.now ≡ length actuals.now }
    ensures formals { IfOk result (λ joins. map (λ join. join.formal) joins ≡ formals.now) }
    ensures actuals { IfOk result (λ joins. map (λ join. join.actual) joins ≡ actuals.now) }
{
    let mut joins = List::new(alloc);
    for place in 0..formals.len() {
        joins.push(NumberedJoin {
            formal: formals[place],
            actual: actuals[place],
        })?;
    }
    Ok(joins)
}

/// What words join, where the model that is joined has these names and the actual ones have these numbers; none where a word joins
/// none of the names.
pub fn joins_in(
    alloc: Global,
    names: &Words,
    words: &[&[u8]],
    actuals: &[u32],
) -> Result<Option<List<NumberedJoin>>, AllocError>
    requires { length actuals.now ≡ length words.now }
    ensures { IfOk result (λ found. MatchOption found (list_all (joins_one_of names.now) (words_in words.now) ≡ false) (AreJoinNumbers names.now (words_in words.now) actuals.now)) }
{
    match formals_in(alloc, names, words)? {
        Some(formals) => Ok(Some(joins_from(alloc, &formals, actuals)?)),
        None => Ok(None),
    }
}
