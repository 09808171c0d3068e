//! The places of positions by their ranks, by one sort.

ghost use Rattle.std.specs.Prelude.{◌≡◌, ◌≤◌, ◌^◌, IfOk, length, map};
ghost use Rattle.std.specs.List.{range_with_len};
ghost use Rattle.dddmp_text.specs.Ranks.{AreByRank, AreVariables, placed};

use crate::numbers::END;
use std::alloc::{AllocError, Global};

/// The entries with their places. For more than 2^31 there is no memory.
fn placed(alloc: Global, entries: &[u32]) -> Result<Vec<(u32, u32)>, AllocError>
    ensures pairs { IfOk result (λ pairs. pairs.items ≡ map (placed entries.now) (range_with_len 0 (length entries.now))) }
    ensures few { IfOk result (λ pairs. length entries.now ≤ 2 ^ 31) }
{
    if entries.len() > END as usize {
        return Err(AllocError);
    }
    let mut pairs = Vec::with_capacity(alloc, entries.len())?;
    for (place, entry) in entries.iter().enumerate() {
        pairs.push((*entry, place as u32))?;
    }
    Ok(pairs)
}

/// The places of all entries, by their ranks.
pub fn places_by_rank(alloc: Global, entries: &[u32]) -> Result<Vec<u32>, AllocError>
    ensures ranks { IfOk result (λ places. AreByRank entries.now places.items) }
    ensures few { IfOk result (λ places. length entries.now ≤ 2 ^ 31) }
{
    let mut pairs = placed(alloc, entries)?;
    pairs.sort_unstable();
    let mut places = Vec::with_capacity(alloc, pairs.len())?;
    for rank in 0..pairs.len() {
        places.push(pairs[rank].1)?;
    }
    Ok(places)
}

/// The variables of the internal indices, from the ids and their positions.
pub fn variables_of(alloc: Global, ids: &[u32], permids: &[u32]) -> Result<Vec<u32>, AllocError>
    requires { length permids.now ≡ length ids.now }
    ensures told { IfOk result (λ variables. AreVariables ids.now permids.now variables.items) }
    ensures few { IfOk result (λ variables. length permids.now ≤ 2 ^ 31) }
{
    let places = places_by_rank(alloc, permids)?;
    let mut variables = Vec::with_capacity(alloc, places.len())?;
    for rank in 0..places.len() {
        variables.push(ids[places[rank] as usize])?;
    }
    Ok(variables)
}
