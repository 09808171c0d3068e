//! What numbered models hold, and what each has itself.

ghost use Rattle.std.specs.Prelude.{◌≡◌, ◌+◌, IfOk, length, map, sum_by};
ghost use Rattle.blif_models.specs.NumberedGraphs.{all_held, copies_of, held_by, latches_of, own_of, signals_of};

use crate::numbered::{Entry, NumberedModel};
use edge_bits::List;
use std::alloc::{AllocError, Global};

/// How many signals, latches and instances there are.
#[derive(Debug, Clone, Copy, PartialEq, Eq, Drop)]
pub struct Own {
    pub signals: u64,
    pub latches: u64,
    pub copies: u64,
}

/// The models that some entries hold, in their order.
fn held_by(alloc: Global, entries: &[Entry]) -> Result<List<u32>, AllocError>
    ensures { IfOk result (λ held. held ≡ held_by entries.now) }
{
    let mut held = List::new(alloc);
    for entry in entries {
        if let Entry::Instance(instance) = entry {
            held.push(instance.model)?;
        }
    }
    Ok(held)
}

/// The models that each model holds, in the order of its entries.
pub fn holds_of(alloc: Global, models: &[NumberedModel]) -> Result<Vec<List<u32>>, AllocError>
    ensures { IfOk result (λ holds. holds.items ≡ all_held models.now) }
{
    let mut holds = Vec::with_capacity(alloc, models.len())?;
    for model in models {
        holds.push(held_by(alloc, model.entries.as_slice())?)?;
    }
    Ok(holds)
}

/// What an entry counts for.
fn own_of(entry: &Entry) -> Own
    ensures { result ≡ own_of entry.now }
{
    let (signals, latches, copies) = match entry {
        Entry::Cover(_) => (1, 0, 0),
        Entry::Latch(_) => (1, 1, 0),
        Entry::Instance(_) => (0, 0, 1),
    };
    Own {
        signals,
        latches,
        copies,
    }
}

/// What a model has itself.
pub fn own_in(model: &NumberedModel) -> Own
    ensures signals { result.signals ≡ signals_of model.now }
    ensures latches { result.latches ≡ latches_of model.now }
    ensures copies { result.copies ≡ copies_of model.now }
{
    let mut own = Own {
        signals: 0,
        latches: 0,
        copies: 0,
    };
    for entry in model.entries.as_slice() {
        let one = own_of(entry);
        own = Own {
            signals: own.signals + one.signals,
            latches: own.latches + one.latches,
            copies: own.copies + one.copies,
        };
    }
    own
}
