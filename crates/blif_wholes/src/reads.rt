//! The covers of a whole in an order in which each stands after those that it reads.

ghost use Rattle.std.specs.Prelude.{◌≡◌, ◌<◌, ◌-◌, ◌^◌, All, length, map, IfOk, List as ListOf};
ghost use Rattle.blif_models.specs.Circuits.{Circuit};
ghost use Rattle.blif_models.specs.Models.{Model};
ghost use Rattle.blif_wholes.specs.Arranged.{AreInRange, IsArranged, reads_in};
ghost use Rattle.blif_wholes.specs.Built.{IsSound};
ghost use Rattle.blif_wholes.specs.Drafting.{IsWholeDraft};

use crate::drafting::WholeDraft;
use crate::names::WholeNames;
use crate::parting::WholeCover;
use crate::roles::Role;
use blif_order::{Arranged, arrange};
use edge_bits::List;
use std::alloc::{AllocError, Global};

/// More covers than this, or a cover that reads more, are not arranged: for them there is no memory.
const MOST: usize = 4_294_967_294;

/// The numbers of the covers whose outputs have these numbers.
fn reads_of(alloc: Global, names: &WholeNames, ins: &[u32]) -> Result<List<u32>, AllocError>
    requires { All (λ n. n < length names.now) ins.now }
    ensures reads { IfOk result (λ reads. reads ≡ reads_in names.now ins.now) }
    ensures few { IfOk result (λ reads. length reads < 2 ^ 32 - 1) }
{
    let mut reads = List::new(alloc);
    for number in ins {
        if let Role::Cover(cover) = names.role_at(*number as usize) {
            reads.push(cover)?;
        }
    }
    if reads.len() > MOST {
        return Err(AllocError);
    }
    Ok(reads)
}

/// The numbers of the covers that each cover reads.
fn all_reads(
    alloc: Global,
    names: &WholeNames,
    covers: &[WholeCover],
) -> Result<Vec<List<u32>>, AllocError>
    requires { AreInRange names.now covers.now }
    ensures reads { IfOk result (λ reads. reads.items ≡ map (λ one. reads_in names.now one.cover.ins) covers.now) }
    ensures few { IfOk result (λ reads. All (λ one. length one < 2 ^ 32 - 1) reads.items) }
{
    let mut reads = Vec::with_capacity(alloc, covers.len())?;
    for one in covers {
        reads.push(reads_of(alloc, names, one.cover.ins.as_slice())?)?;
    }
    Ok(reads)
}

/// The covers of a whole in an order in which each stands after those that it reads, or the first that lies on a cycle or depends on one.
pub fn arranged(alloc: Global, draft: &WholeDraft) -> Result<Arranged, AllocError>
    requires { (models : ListOf Model) × (circuit : Circuit) × IsWholeDraft models circuit draft.now × IsSound circuit }
    ensures { IfOk result (λ arranged. (models : ListOf Model) (circuit : Circuit) → IsWholeDraft models circuit draft.now → IsSound circuit → IsArranged circuit arranged) }
{
    let covers = draft.covers.as_slice();
    if covers.len() > MOST {
        return Err(AllocError);
    }
    let reads = all_reads(alloc, &draft.names, covers)?;
    arrange(alloc, &reads)
}
