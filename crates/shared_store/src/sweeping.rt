//! The sweep.

ghost use Rattle.std.specs.Prelude.{◌≡◌, ◌+◌, ℕ};
ghost use Rattle.dead_sweep.specs.Swept.{IsSwept};
ghost use Rattle.node_slots.specs.Held.{Alone};
ghost use Rattle.node_slots.specs.Wholes.{content_view};
ghost use Rattle.shared_store.specs.Lasting.{KeepsGenerations, Lasts};
ghost use Rattle.shared_store.specs.Sharing.{count, orders, view_of};
ghost use Rattle.shared_store.specs.Storing.{StoresOnly};

use crate::shared::Shared;
use dead_sweep::{Swept, sweep};

impl Shared {
    /// Frees exactly the slots that are reached neither from a permanent slot nor from one that a row or a cell holds. Each
    /// slot that is held keeps its function, its count and its generation, and both orders stay. Where
    /// nothing is held, the permanent slots alone are left.
    pub fn sweep(self) -> (Shared, Swept)
        ensures swept { IsSwept Alone (content_view self.store) (content_view result.0.store) result.1 }
        ensures lasts { Lasts self result.0 }
        ensures generations { KeepsGenerations self result.0 }
        ensures orders { orders result.0 ≡ orders self }
        ensures stored { StoresOnly (λ _. ⊥) self result.0 }
        ensures emptied { ((k : ℕ) → count self k ≡ 0) → result.1.in_use ≡ 5 + (view_of self).vars }
    {
        self.store.tell_sound();
        let Shared { store, cells } = self;
        let (mut held, place) = store.hold();
        let swept = sweep(&mut held);
        let store = place.release(held);
        store.tell_sound();
        (Shared { store, cells }, swept)
    }
}
