//! The instances by which models hold themselves.

ghost use Rattle.std.specs.Prelude.{◌≡◌, ◌<◌, All, IfOk, find, length};
ghost use Rattle.std.specs.Option.{option_map};
ghost use Rattle.blif_models.specs.Graphs.{AreWithin, turns_back};
ghost use Rattle.blif_models.specs.Ranks.{AreRanks};

use crate::ranks::ranks_of;
use crate::reached::reached_from;
use edge_bits::List;
use std::alloc::{AllocError, Global};

/// An instance: its line, the model in which it stands, and the model that it is of.
#[derive(Debug, Clone, Copy, PartialEq, Eq, Drop)]
pub struct Holding {
    pub line: u64,
    pub by: u32,
    pub model: u32,
}

/// Whether the model of an instance is the one in which it stands, or holds that through any number of levels.
fn turns_back(
    alloc: Global,
    holds: &[List<u32>],
    ranks: &[u64],
    one: Holding,
) -> Result<bool, AllocError>
    requires by { one.by < length holds.now }
    requires model { one.model < length holds.now }
    requires within { AreWithin (length holds.now) holds.now }
    requires many { length ranks.now ≡ length holds.now }
    requires ranks { AreRanks holds.now ranks.now }
    ensures { IfOk result (λ turns. turns ≡ turns_back holds.now one) }
{
    if ranks[one.model as usize] < ranks[one.by as usize] {
        return Ok(false);
    }
    let met = reached_from(alloc, holds, one.model)?;
    Ok(met[one.by as usize])
}

/// The line of the first of these instances by which a model holds itself. What is ranked lower than its holder is passed, so that
/// one search is enough where two models of one rank hold each other.
pub fn first_turning(
    alloc: Global,
    holds: &[List<u32>],
    holdings: &[Holding],
) -> Result<Option<u64>, AllocError>
    requires by { All (λ one. one.by < length holds.now) holdings.now }
    requires model { All (λ one. one.model < length holds.now) holdings.now }
    requires within { AreWithin (length holds.now) holds.now }
    ensures { IfOk result (λ line. line ≡ option_map (λ one. one.line) (find (turns_back holds.now) holdings.now)) }
{
    let ranks = ranks_of(alloc, holds)?;
    for one in holdings {
        if turns_back(alloc, holds, &ranks, *one)? {
            return Ok(Some(one.line));
        }
    }
    Ok(None)
}
