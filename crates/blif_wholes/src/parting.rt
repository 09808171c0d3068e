//! Covers and latches of a whole apart.

ghost use Rattle.std.specs.Prelude.{◌≡◌, IfOk, IsPermutation};
ghost use Rattle.std.specs.List.Sorted.{IsNonDecreasingBy};
ghost use Rattle.blif_wholes.specs.Parting.{covers_laid, latches_laid};

use blif_models::{Laid, NumberedCover, NumberedLatch};
use std::alloc::{AllocError, Global};

/// A cover of a whole, with numbers of spots, and at which place of which model it stands.
#[derive(Drop)]
pub struct WholeCover {
    pub cover: NumberedCover,
    pub model: u32,
    pub place: usize,
}

/// The covers of a whole, and its latches.
#[derive(Drop)]
pub struct WholeParts {
    pub covers: Vec<WholeCover>,
    pub latches: Vec<NumberedLatch>,
}

/// The covers and the latches among what is laid out, in their order.
fn parts_of(alloc: Global, laid: Vec<Laid>) -> Result<WholeParts, AllocError>
    ensures covers { IfOk result (λ parts. parts.covers.items ≡ covers_laid laid.items) }
    ensures latches { IfOk result (λ parts. parts.latches.items ≡ latches_laid laid.items) }
{
    let mut covers = Vec::new(alloc);
    let mut latches = Vec::new(alloc);
    for one in laid {
        match one {
            Laid::Cover {
                cover,
                model,
                place,
            } => covers.push(WholeCover {
                cover,
                model,
                place,
            })?,
            Laid::Latch(latch) => latches.push(latch)?,
        }
    }
    Ok(WholeParts { covers, latches })
}

/// The covers among what is laid out in the order of their lines, and the latches in the order in which they stand.
pub fn parts_by_line(alloc: Global, laid: Vec<Laid>) -> Result<WholeParts, AllocError>
    ensures covers { IfOk result (λ parts. IsPermutation (covers_laid laid.items) parts.covers.items) }
    ensures rising { IfOk result (λ parts. IsNonDecreasingBy (λ one. one.cover.line) parts.covers.items) }
    ensures latches { IfOk result (λ parts. parts.latches.items ≡ latches_laid laid.items) }
{
    let WholeParts {
        mut covers,
        latches,
    } = parts_of(alloc, laid)?;
    covers.sort_unstable_by_key(|one| one.cover.line);
    Ok(WholeParts { covers, latches })
}
