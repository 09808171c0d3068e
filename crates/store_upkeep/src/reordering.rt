//! The swap of two neighbouring levels.

ghost use Rattle.std.specs.Prelude.{◌≡◌, ◌+◌, ◌<◌, None, false, length};
ghost use Rattle.function_laws.specs.Sizes.{in_order};
ghost use Rattle.node_slots.specs.Held.{Alone};
ghost use Rattle.node_slots.specs.Stores.{is_held};
ghost use Rattle.node_slots.specs.Wholes.{content_view};
ghost use Rattle.store_upkeep.specs.Lasting.{Lasts, orders_of};
ghost use Rattle.store_upkeep.specs.Reordering.{Reorders, orders_left};

use dead_sweep::sweep;
use level_swap::{need_of, swap_of};
use node_slots::PlainStore;
use node_store::{Order, Whole};

/// There was no room for a swap: so many slots were in use, and so many more were needed.
#[derive(Debug, Clone, Copy, PartialEq, Eq)]
pub struct Crowded {
    pub in_use: u32,
    pub need: u32,
}

/// A sweep, and the exchange of a level and the next where there is room for it.
fn sweep_and_swap<W: Whole>(w: &mut W, order: Order, level: u32) -> Result<(), Crowded>
    requires idle { (W.view w.old).sweeping ≡ false }
    requires whole { (W.view w.old).half ≡ None }
    requires level { level + 1 < length (in_order (W.view w.old).orders order) }
    ensures { Reorders W.others order level (W.view w.old) (W.view w.new) result }
{
    let in_use = sweep(w).in_use;
    let need = need_of(w, order, level);
    if w.room() < need {
        return Err(Crowded { in_use, need });
    }
    swap_of(w, order, level);
    Ok(())
}

/// Sweeps, and then exchanges a level of an order and the next in place (Rudell 1993), where as many slots are free as the exchange asks
/// for: twice the nodes of the level, and those of the next. Else nothing more is changed. Each counted slot keeps its function and its
/// count. `level + 1` is a level of the order.
pub fn swap_levels(store: PlainStore, order: Order, level: u32) -> (PlainStore, Result<(), Crowded>)
    requires rest { is_held store ≡ false }
    requires level { level + 1 < length (in_order (orders_of store) order) }
    ensures reorders { Reorders Alone order level (content_view store) (content_view result.0) result.1 }
    ensures rest { is_held result.0 ≡ false }
    ensures lasts { Lasts store result.0 }
    ensures orders { orders_of result.0 ≡ orders_left order level (orders_of store) result.1 }
{
    store.tell_sound();
    let mut held = store.hold();
    let done = sweep_and_swap(&mut held, order, level);
    let left = held.release();
    left.tell_sound();
    (left, done)
}
