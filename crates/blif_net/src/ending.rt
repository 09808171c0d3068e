//! What comes of models when all lines were read.

ghost use Rattle.std.specs.Prelude.{◌≡◌, IfErr, IfOk, List as ListOf, length, map};
ghost use Rattle.blif_models.specs.Models.{Item, Model};
ghost use Rattle.blif_net.specs.Ending.{ErrorIs, IsExpanded, IsNetOfWhole};
ghost use Rattle.blif_net.specs.Faults.{expanded_fault, last_number};
ghost use Rattle.blif_net.specs.ModelVerdicts.{verdict_fault};
ghost use Rattle.blif_models.specs.Models.{whole_items};
ghost use Rattle.blif_text.specs.Text.{Line};

use crate::faults::{BlifError, BlifFault, FaultKind};
use blif_drafts::Verdict;
use blif_formals::Words;
use blif_models::{Outcome, Whole};
use blif_wholes::{Built, CoverRows, SpotUse, network_of, undefined_line, whole_draft};
use cover_nets::Net;
use std::alloc::{AllocError, Global};

/// This fault on the line of this number.
pub fn fault_at(line: u64, what: FaultKind) -> BlifError
    ensures { result ≡ BlifError.Fault (record { line = line; what = what }) }
{
    BlifError::Fault(BlifFault { line, what })
}

/// The uses of these spots, each on the line in its place.
pub fn uses_of(alloc: Global, spots: &[u32], lines: &[u64]) -> Result<Vec<SpotUse>, AllocError>
    requires { length lines.now ≡ length spots.now }
    ensures spots { IfOk result (λ uses. map (λ one. one.spot) uses.items ≡ spots.now) }
    ensures lines { IfOk result (λ uses. map (λ one. one.line) uses.items ≡ lines.now) }
{
    let mut uses = Vec::with_capacity(alloc, spots.len())?;
    for (spot, line) in spots.iter().zip(lines) {
        uses.push(SpotUse {
            spot: *spot,
            line: *line,
        })?;
    }
    Ok(uses)
}

/// The whole that comes of models, or what is told of them.
pub fn whole_in(verdict: Verdict) -> Result<Whole, BlifError>
    ensures whole { IfOk result (λ whole. verdict ≡ Verdict.Comes (Outcome.Expanded whole)) }
    ensures fault { IfErr result (λ error. (lines : ListOf Line) (main : Model) (items : ListOf Item) → ErrorIs (verdict_fault lines main items verdict) error) }
{
    match verdict {
        Verdict::Nameless(line) => Err(fault_at(line, FaultKind::Model)),
        Verdict::Misjoined(line) => Err(fault_at(line, FaultKind::Formal)),
        Verdict::Twice(line) => Err(fault_at(line, FaultKind::Twice)),
        Verdict::Comes(Outcome::Turning(line)) => Err(fault_at(line, FaultKind::Cycle)),
        Verdict::Comes(Outcome::TooMany(line)) => Err(fault_at(line, FaultKind::TooMany)),
        Verdict::Comes(Outcome::Expanded(whole)) => Ok(whole),
    }
}

/// The network of a whole, where the last line of the text has this number, or what is wrong with it: a use of what is no signal, a cover
/// on a cycle or that depends on one, or that it has no outputs.
pub fn network_in(
    alloc: Global,
    words: Vec<Words>,
    whole: Whole,
    inputs: &[u32],
    outputs: &[SpotUse],
    kept: &[Vec<Option<CoverRows>>],
    last: u64,
) -> Result<Net, BlifError>
    requires { (models : ListOf Model) × (main : Model) × IsExpanded models words.items main whole inputs.now outputs.now kept.now }
    ensures net { IfOk result (λ net. (lines : ListOf Line) (models : ListOf Model) (main : Model) → IsExpanded models words.items main whole inputs.now outputs.now kept.now → IsNetOfWhole lines models main net) }
    ensures fault { IfErr result (λ error. (lines : ListOf Line) (models : ListOf Model) (main : Model) → IsExpanded models words.items main whole inputs.now outputs.now kept.now → last ≡ last_number lines → ErrorIs (expanded_fault lines main (whole_items models main)) error) }
{
    if let Some(line) = undefined_line(alloc, &whole, inputs, outputs)? {
        return Err(fault_at(line, FaultKind::Undefined));
    }
    let draft = whole_draft(alloc, words, whole, inputs, outputs)?;
    let net = match network_of(alloc, kept, &draft)? {
        Built::Cyclic(line) => return Err(fault_at(line, FaultKind::Cycle)),
        Built::Network(net) => net,
    };
    if net.outputs().is_empty() {
        return Err(fault_at(last, FaultKind::NoOutputs));
    }
    Ok(net)
}
