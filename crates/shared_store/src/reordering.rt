//! The swap of two neighbouring levels.

ghost use Rattle.std.specs.Prelude.{◌≡◌, ◌+◌, ◌<◌, IsTrue, None, false, is_err, length};
ghost use Rattle.function_laws.specs.Sizes.{in_order};
ghost use Rattle.node_slots.specs.Held.{Alone};
ghost use Rattle.node_slots.specs.Wholes.{content_view};
ghost use Rattle.shared_store.specs.Lasting.{KeepsGenerations, Lasts};
ghost use Rattle.shared_store.specs.Reordering.{Reorders, orders_left};
ghost use Rattle.shared_store.specs.Sharing.{orders};
ghost use Rattle.shared_store.specs.Storing.{StoresOnly};

use crate::shared::Shared;
use dead_sweep::sweep;
use level_swap::{need_of, swap_of};
use node_store::{Order, Whole};

/// There was no room for a swap: so many slots were in use, and so many more were needed.
#[derive(Debug, Clone, Copy, PartialEq, Eq)]
pub struct Crowded {
    pub in_use: u32,
    pub need: u32,
}

/// A sweep, and the exchange of a level and the next where there is room for it.
fn sweep_and_swap<W: Whole>(w: &mut W, order: Order, level: u32) -> Result<(), Crowded>
    requires idle { (W.view w.old).sweeping ≡ false }
    requires whole { (W.view w.old).half ≡ None }
    requires level { level + 1 < length (in_order (W.view w.old).orders order) }
    ensures { Reorders W.others order level (W.view w.old) (W.view w.new) result }
{
    let in_use = sweep(w).in_use;
    let need = need_of(w, order, level);
    if w.room() < need {
        return Err(Crowded { in_use, need });
    }
    swap_of(w, order, level);
    Ok(())
}

impl Shared {
    /// Sweeps, and then exchanges a level of an order and the next in place (Rudell 1993), where as many slots are free as the
    /// exchange asks for: twice the nodes of the level, and those of the next. Else nothing more is changed. Each slot that is
    /// held keeps its function, its count and its generation. `level + 1` is a level of the order.
    pub fn swap(self, order: Order, level: u32) -> (Shared, Result<(), Crowded>)
        requires level { level + 1 < length (in_order (orders self) order) }
        ensures reorders { Reorders Alone order level (content_view self.store) (content_view result.0.store) result.1 }
        ensures lasts { Lasts self result.0 }
        ensures generations { KeepsGenerations self result.0 }
        ensures orders { orders result.0 ≡ orders_left order level (orders self) result.1 }
        ensures stored { IsTrue (is_err result.1) → StoresOnly (λ _. ⊥) self result.0 }
    {
        self.store.tell_sound();
        let Shared { store, cells } = self;
        let (mut held, place) = store.hold();
        let done = sweep_and_swap(&mut held, order, level);
        let store = place.release(held);
        store.tell_sound();
        (Shared { store, cells }, done)
    }
}
