//! The whole of a main model of numbered models, or what is wrong with it.

ghost use Rattle.std.specs.Prelude.{◌≡◌, ◌<◌, ◌-◌, ◌^◌, IfOk, OnOk, length, map, nat_lt};
ghost use Rattle.std.specs.List.{list_all};
ghost use Rattle.blif_models.specs.Additions.{AreRising, lines_of};
ghost use Rattle.blif_models.specs.Arrangements.{IsArranged};
ghost use Rattle.blif_models.specs.Expanding.{AreCounts, OutcomeIs, limit_in};
ghost use Rattle.blif_models.specs.Kept.{reached_models};
ghost use Rattle.blif_models.specs.Layouts.{AreNumbered, model_at};
ghost use Rattle.blif_models.specs.NumberedGraphs.{copies_of, latches_of, signals_of};

use crate::adding::limit_line;
use crate::arranging::{Arrangement, arrange_models};
use crate::graph::{holds_of, own_in};
use crate::kept::keep_reached;
use crate::layout::{Whole, lay_out};
use crate::limits::Adding;
use crate::numbered::NumberedModel;
use crate::totals::totals_of;
use std::alloc::{AllocError, Global};

/// For each model its signals, latches and copies.
#[derive(Drop)]
pub struct Counts {
    pub signals: Vec<u64>,
    pub latches: Vec<u64>,
    pub copies: Vec<u64>,
}

/// What each model has itself.
fn own_counts(alloc: Global, models: &[NumberedModel]) -> Result<Counts, AllocError>
    ensures signals { IfOk result (λ own. own.signals.items ≡ map signals_of models.now) }
    ensures latches { IfOk result (λ own. own.latches.items ≡ map latches_of models.now) }
    ensures copies { IfOk result (λ own. own.copies.items ≡ map copies_of models.now) }
{
    let mut signals = Vec::with_capacity(alloc, models.len())?;
    let mut latches = Vec::with_capacity(alloc, models.len())?;
    let mut copies = Vec::with_capacity(alloc, models.len())?;
    for model in models {
        let own = own_in(model);
        signals.push(own.signals)?;
        latches.push(own.latches)?;
        copies.push(own.copies)?;
    }
    Ok(Counts {
        signals,
        latches,
        copies,
    })
}

/// What each model has in all, where each stands behind those that it holds.
fn counts_in(alloc: Global, models: &[NumberedModel], order: &[u32]) -> Result<Counts, AllocError>
    requires numbered { AreNumbered models.now }
    requires order { IsArranged models.now order.now }
    ensures { IfOk result (λ counts. AreCounts models.now order.now counts) }
{
    let holds = holds_of(alloc, models)?;
    let own = own_counts(alloc, models)?;
    let signals = totals_of(alloc, &holds, order, &own.signals)?;
    let latches = totals_of(alloc, &holds, order, &own.latches)?;
    let copies = totals_of(alloc, &holds, order, &own.copies)?;
    Ok(Counts {
        signals,
        latches,
        copies,
    })
}

/// Whether all are lower than 2^64 - 1.
fn are_lower(counts: &[u64]) -> bool
    ensures { result ≡ list_all (λ n. nat_lt n (2 ^ 64 - 1)) counts.now }
{
    counts.iter().all(|count| *count < u64::MAX)
}

/// What comes of a main model: the line of the first instance by which a model holds itself, that of the first line by which the
/// limits are passed, or its whole. Each comes only where none before it does.
#[derive(Drop)]
pub enum Outcome {
    Turning(u64),
    TooMany(u64),
    Expanded(Whole),
}

/// What comes of a main model, where no other one than those that it reaches has entries.
fn expand_kept(
    alloc: Global,
    models: &[NumberedModel],
    main: u32,
    inputs: &[Adding],
) -> Result<Outcome, AllocError>
    requires main { main < length models.now }
    requires numbered { AreNumbered models.now }
    requires inputs { AreRising inputs.now }
    requires entries { AreRising (lines_of (model_at models.now main).entries) }
    ensures { IfOk result (OutcomeIs models.now main inputs.now) }
{
    let order = match arrange_models(alloc, models)? {
        Arrangement::Turning(line) => return Ok(Outcome::Turning(line)),
        Arrangement::Ordered(order) => order,
    };
    let counts = counts_in(alloc, models, &order)?;
    let entries = models[main as usize].entries.as_slice();
    if let Some(line) = limit_line(alloc, inputs, &counts.signals, &counts.latches, entries)? {
        return Ok(Outcome::TooMany(line));
    }
    if !are_lower(&counts.copies) {
        return Err(AllocError);
    }
    let whole = lay_out(alloc, models, &counts.copies, &counts.signals, main)?;
    Ok(Outcome::Expanded(whole))
}

/// What comes of a main model, whose lines of inputs add this much. Its lines rise. Models are not laid out before it is known that
/// none of them holds itself and that the whole keeps to the limits; then 2^64 - 1 copies or more in one model are want of memory.
/// The entries of models that the main one does not reach are taken from them, and do not matter.
pub fn expand(
    alloc: Global,
    models: &mut Vec<NumberedModel>,
    main: u32,
    inputs: &[Adding],
) -> Result<Outcome, AllocError>
    requires main { main < length models.old.items }
    requires numbered { AreNumbered models.old.items }
    requires inputs { AreRising inputs.now }
    requires entries { AreRising (lines_of (model_at models.old.items main).entries) }
    ensures { IfOk result (OutcomeIs (reached_models models.old.items main) main inputs.now) }
{
    keep_reached(alloc, models, main)?;
    expand_kept(alloc, models, main, inputs)
}
