//! The sweep.

ghost use Rattle.std.specs.Prelude.{◌≡◌, false};
ghost use Rattle.dead_sweep.specs.Swept.{IsSwept};
ghost use Rattle.node_slots.specs.Held.{Alone};
ghost use Rattle.node_slots.specs.Stores.{is_held};
ghost use Rattle.node_slots.specs.Wholes.{content_view};
ghost use Rattle.store_upkeep.specs.Lasting.{Lasts, orders_of};

use dead_sweep::{Swept, sweep};
use node_slots::PlainStore;

/// Frees exactly the slots that are reached neither from a permanent slot nor from one that is counted. Each counted slot keeps its
/// function and its count, and both orders stay. No sweep is on, and no slot is pinned.
pub fn sweep_slots(store: PlainStore) -> (PlainStore, Swept)
    requires { is_held store ≡ false }
    ensures swept { IsSwept Alone (content_view store) (content_view result.0) result.1 }
    ensures rest { is_held result.0 ≡ false }
    ensures lasts { Lasts store result.0 }
    ensures orders { orders_of result.0 ≡ orders_of store }
{
    store.tell_sound();
    let mut held = store.hold();
    let swept = sweep(&mut held);
    let left = held.release();
    left.tell_sound();
    (left, swept)
}
