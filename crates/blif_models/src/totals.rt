//! What models have in all, counted model by model.

ghost use Rattle.std.specs.Prelude.{◌≡◌, ◌<◌, ◌+◌, [], All, IfOk, get_or, length, sum_by, vec_len};
ghost use Rattle.blif_order.specs.Orders.{Ordered};
ghost use Rattle.blif_models.specs.Graphs.{AreTotals, AreWithin, capped};

use edge_bits::List;
use std::alloc::{AllocError, Global};

/// What a model has in all that has so much itself and holds these, which have so much in all.
fn total_of(own: u64, totals: &[u64], held: &[u32]) -> u64
    requires { All (λ m. m < length totals.now) held.now }
    ensures { result ≡ capped (own + sum_by (λ m. get_or totals.now m 0) held.now) }
{
    let mut total = own;
    for model in held {
        total = total.saturating_add(totals[*model as usize]);
    }
    total
}

/// What each model of an order has in all, itself and by the models that it holds, each counted as often as it is held.
/// Nothing is laid out: the work is as much as there are models and instances. 2^64 - 1 stands for all from there on.
pub fn totals_of(
    alloc: Global,
    holds: &[List<u32>],
    order: &[u32],
    own: &[u64],
) -> Result<Vec<u64>, AllocError>
    requires own { length own.now ≡ length holds.now }
    requires within { AreWithin (length holds.now) holds.now }
    requires order { All (λ m. m < length holds.now) order.now }
    requires ordered { Ordered holds.now [] order.now }
    ensures many { IfOk result (λ totals. vec_len totals ≡ length holds.now) }
    ensures totals { IfOk result (λ totals. AreTotals holds.now own.now order.now totals.items) }
{
    let mut totals = vec![in alloc; 0u64; own.len()]?;
    for model in order {
        let place = *model as usize;
        totals[place] = total_of(own[place], &totals, holds[place].as_slice());
    }
    Ok(totals)
}
