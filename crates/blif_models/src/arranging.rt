//! Models in an order in which each stands behind those that it holds, or the instance by which one holds itself.

ghost use Rattle.std.specs.Prelude.{◌≡◌, ◌<◌, ◌+◌, ◌++◌, ◌-◌, ◌^◌, IfOk, OnOk, length, nat_lt};
ghost use Rattle.std.specs.List.{list_all};
ghost use Rattle.blif_models.specs.Arrangements.{ArrangementIs, holdings_by, holdings_from};
ghost use Rattle.blif_models.specs.Layouts.{AreNumbered};

use crate::cycles::{Holding, first_turning};
use crate::graph::holds_of;
use crate::numbered::{Entry, NumberedModel};
use blif_order::{Arranged, arrange};
use edge_bits::List;
use std::alloc::{AllocError, Global};

/// The number as one of 32 bits. For more there is no memory.
pub fn number_of(n: usize) -> Result<u32, AllocError>
    ensures { IfOk result (λ number. number ≡ n) }
{
    if n <= 4_294_967_295 {
        Ok(n as u32)
    } else {
        Err(AllocError)
    }
}

/// Adds the instances among the entries of a model.
fn add_holdings(found: &mut Vec<Holding>, by: u32, entries: &[Entry]) -> Result<(), AllocError>
    ensures { OnOk result (found.new.items ≡ found.old.items ++ holdings_by by entries.now) }
{
    for entry in entries {
        if let Entry::Instance(instance) = entry {
            found.push(Holding {
                line: instance.line,
                by,
                model: instance.model,
            })?;
        }
    }
    Ok(())
}

/// The instances that stand in models, in their order.
pub fn holdings_of(alloc: Global, models: &[NumberedModel]) -> Result<Vec<Holding>, AllocError>
    ensures { IfOk result (λ holdings. holdings.items ≡ holdings_from 0 models.now) }
{
    let count = number_of(models.len())?;
    let mut found = Vec::new(alloc);
    for by in 0..count {
        add_holdings(&mut found, by, models[by as usize].entries.as_slice())?;
    }
    Ok(found)
}

/// Whether each model holds fewer than 2^32 - 1.
fn are_few(holds: &[List<u32>]) -> bool
    ensures { result ≡ list_all (λ held. nat_lt (length held) (2 ^ 32 - 1)) holds.now }
{
    for held in holds {
        if held.len() >= 4_294_967_295 {
            return false;
        }
    }
    true
}

/// Models in an order, or the line of the first instance by which one holds itself.
#[derive(Drop)]
pub enum Arrangement {
    Ordered(Vec<u32>),
    Turning(u64),
}

/// All models in an order in which each stands behind those that it holds; or the line of the first instance, in the order of models
/// and entries, by which one holds itself.
pub fn arrange_models(alloc: Global, models: &[NumberedModel]) -> Result<Arrangement, AllocError>
    requires { AreNumbered models.now }
    ensures { IfOk result (ArrangementIs models.now) }
{
    let _count = number_of(models.len())?;
    let holds = holds_of(alloc, models)?;
    if !are_few(&holds) {
        return Err(AllocError);
    }
    match arrange(alloc, &holds)? {
        Arranged::Ordering(order) => Ok(Arrangement::Ordered(order)),
        Arranged::Cyclic(_) => {
            let holdings = holdings_of(alloc, models)?;
            let Some(line) = first_turning(alloc, &holds, &holdings)? else {
                unreachable!();
            };
            Ok(Arrangement::Turning(line))
        }
    }
}
