//! What stands in models by number, where it is known of which models their instances are.

ghost use Rattle.std.specs.Prelude.{◌≡◌, IfOk, length, [], true, false};
ghost use Rattle.blif_drafts.specs.Entries.{AreEntriesBy, AreKnown, AreKnownIn, AreModelsBy, IsEntryBy, IsInstanceAt, IsKnown, IsKnownItem, step_of};
ghost use Rattle.blif_formals.specs.Formals.{AreCallees};

use crate::drafts::DraftItem;
use blif_formals::{Call, Callees, Words, instance_by};
use blif_models::{Entry, NumberedInstance, NumberedModel};
use edge_bits::List;
use std::alloc::{AllocError, Global};

/// The instance of a model at a place among its instances, which is known, with the numbers of its actual names.
fn instance_at(
    alloc: Global,
    callees: &Callees<'_>,
    calls: &[Call],
    joined: &[List<&[u8]>],
    place: usize,
    found: Option<List<u32>>,
) -> Result<NumberedInstance, AllocError>
    requires callees { AreCallees callees.now }
    requires known { IsKnown callees.now calls.now joined.now place found }
    ensures { IfOk result (IsInstanceAt callees.now calls.now joined.now place found) }
{
    let actuals = match found {
        Some(actuals) => actuals,
        None => unreachable!(),
    };
    let words = joined[place].as_slice();
    match instance_by(alloc, callees, calls[place], words, actuals.as_slice())? {
        Some(instance) => Ok(instance),
        None => unreachable!(),
    }
}

/// An item as an entry, where so many instances of its model stand before.
fn entry_by(
    alloc: Global,
    callees: &Callees<'_>,
    calls: &[Call],
    joined: &[List<&[u8]>],
    place: usize,
    item: DraftItem,
) -> Result<Entry, AllocError>
    requires callees { AreCallees callees.now }
    requires known { IsKnownItem callees.now calls.now joined.now place item }
    ensures { IfOk result (IsEntryBy callees.now calls.now joined.now place item) }
{
    match item {
        DraftItem::Cover(cover) => Ok(Entry::Cover(cover)),
        DraftItem::Latch(latch) => Ok(Entry::Latch(latch)),
        DraftItem::Instance(found) => {
            let one = instance_at(alloc, callees, calls, joined, place, found)?;
            Ok(Entry::Instance(one))
        }
    }
}

/// What an item counts for among instances.
fn step_of(item: &DraftItem) -> usize
    ensures { result ≡ step_of item.now }
{
    match item {
        DraftItem::Instance(_) => 1,
        _ => 0,
    }
}

/// The entries of a model, each instance of which is known.
fn entries_in(
    alloc: Global,
    callees: &Callees<'_>,
    calls: &[Call],
    joined: &[List<&[u8]>],
    items: List<DraftItem>,
) -> Result<List<Entry>, AllocError>
    requires callees { AreCallees callees.now }
    requires known { AreKnown callees.now calls.now joined.now 0 items }
    ensures { IfOk result (AreEntriesBy callees.now calls.now joined.now 0 items) }
{
    let mut entries = List::new(alloc);
    let mut place = 0;
    for item in items.into_vec() {
        let step = step_of(&item);
        entries.push(entry_by(alloc, callees, calls, joined, place, item)?)?;
        place += step;
    }
    Ok(entries)
}

/// A model by number, with entries where it was met.
fn model_in(
    alloc: Global,
    callees: &Callees<'_>,
    names: &Words,
    was_met: bool,
    calls: &[Call],
    joined: &[List<&[u8]>],
    items: List<DraftItem>,
) -> Result<NumberedModel, AllocError>
    requires callees { AreCallees callees.now }
    requires known { was_met ≡ true → AreKnown callees.now calls.now joined.now 0 items }
    ensures names { IfOk result (λ model. model.names ≡ length names.now) }
    ensures met { IfOk result (λ model. was_met ≡ true → AreEntriesBy callees.now calls.now joined.now 0 items model.entries) }
    ensures unmet { IfOk result (λ model. was_met ≡ false → model.entries ≡ []) }
{
    let names = names.len() as u32;
    if was_met {
        let entries = entries_in(alloc, callees, calls, joined, items)?;
        return Ok(NumberedModel { names, entries });
    }
    Ok(NumberedModel {
        names,
        entries: List::new(alloc),
    })
}

/// The models by number, of which only those have entries that were met. Each instance of these is known.
pub fn models_in(
    alloc: Global,
    callees: &Callees<'_>,
    calls: &[List<Call>],
    joined: &[List<List<&[u8]>>],
    met: &[bool],
    items: Vec<List<DraftItem>>,
) -> Result<Vec<NumberedModel>, AllocError>
    requires callees { AreCallees callees.now }
    requires names { length callees.now.names.now ≡ length items.items }
    requires calls { length calls.now ≡ length items.items }
    requires joined { length joined.now ≡ length items.items }
    requires met { length met.now ≡ length items.items }
    requires known { AreKnownIn callees.now items.items calls.now joined.now met.now }
    ensures { IfOk result (λ models. AreModelsBy callees.now items.items calls.now joined.now met.now models.items) }
{
    let mut models = Vec::with_capacity(alloc, items.len())?;
    for own in items {
        let m = models.len();
        let names = &callees.names[m];
        let ones = calls[m].as_slice();
        let words = joined[m].as_slice();
        models.push(model_in(alloc, callees, names, met[m], ones, words, own)?)?;
    }
    Ok(models)
}
