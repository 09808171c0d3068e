//! A whole as the draft of a circuit.

ghost use Rattle.std.specs.Prelude.{◌≡◌, ◌++◌, IfOk, List as ListOf, map};
ghost use Rattle.blif_models.specs.Models.{Model};
ghost use Rattle.blif_wholes.specs.Drafting.{IsDraftOfWhole};
ghost use Rattle.blif_wholes.specs.Uses.{IsNamed};

use crate::names::WholeNames;
use crate::parting::{WholeCover, WholeParts, parts_by_line};
use crate::roles::roles_of;
use crate::uses::SpotUse;
use blif_formals::Words;
use blif_models::{NumberedLatch, Whole};
use std::alloc::{AllocError, Global};

/// A whole by the numbers of its spots: the names with what they are, the inputs and the outputs, those of latches behind the main
/// model's own, and the covers in the order of their lines.
#[derive(Drop)]
pub struct WholeDraft {
    pub names: WholeNames,
    pub inputs: Vec<u32>,
    pub outputs: Vec<u32>,
    pub covers: Vec<WholeCover>,
}

/// Inputs, and behind them what latches show.
fn all_inputs(
    alloc: Global,
    inputs: &[u32],
    latches: &[NumberedLatch],
) -> Result<Vec<u32>, AllocError>
    ensures { IfOk result (λ all. all.items ≡ inputs.now ++ map (λ latch. latch.output) latches.now) }
{
    let mut all = Vec::from_slice(alloc, inputs)?;
    for latch in latches {
        all.push(latch.output)?;
    }
    Ok(all)
}

/// The spots that are used.
fn spots_of(alloc: Global, outputs: &[SpotUse]) -> Result<Vec<u32>, AllocError>
    ensures { IfOk result (λ spots. spots.items ≡ map (λ one. one.spot) outputs.now) }
{
    outputs.iter().map(|one| one.spot).collect(alloc)
}

/// Outputs, and behind them what latches read.
fn all_outputs(
    alloc: Global,
    outputs: &[SpotUse],
    latches: &[NumberedLatch],
) -> Result<Vec<u32>, AllocError>
    ensures { IfOk result (λ all. all.items ≡ map (λ one. one.spot) outputs.now ++ map (λ latch. latch.input) latches.now) }
{
    let mut all = spots_of(alloc, outputs)?;
    for latch in latches {
        all.push(latch.input)?;
    }
    Ok(all)
}

/// The draft of a whole, where the models have these names, and the main one these inputs and outputs.
pub fn whole_draft(
    alloc: Global,
    words: Vec<Words>,
    whole: Whole,
    inputs: &[u32],
    outputs: &[SpotUse],
) -> Result<WholeDraft, AllocError>
    requires { (models : ListOf Model) × (main : Model) × IsNamed models words.items main whole inputs.now outputs.now }
    ensures { IfOk result (λ draft. (models : ListOf Model) (main : Model) → IsNamed models words.items main whole inputs.now outputs.now → IsDraftOfWhole models words.items main whole draft) }
{
    let Whole { spots, laid } = whole;
    let WholeParts { covers, latches } = parts_by_line(alloc, laid)?;
    let inputs = all_inputs(alloc, inputs, &latches)?;
    let outputs = all_outputs(alloc, outputs, &latches)?;
    let roles = roles_of(alloc, spots.len(), &inputs, &covers)?;
    Ok(WholeDraft {
        names: WholeNames::new(spots, words, roles),
        inputs,
        outputs,
        covers,
    })
}
