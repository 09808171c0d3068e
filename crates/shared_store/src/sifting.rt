//! The sift of an order.

ghost use Rattle.std.specs.Prelude.{◌≡◌, length};
ghost use Rattle.function_laws.specs.SiftedOrders.{with_order};
ghost use Rattle.function_laws.specs.Sizes.{in_order};
ghost use Rattle.group_sift.specs.Sifts.{IsIdle, IsSifted};
ghost use Rattle.group_sift.specs.Turns.{last_end};
ghost use Rattle.node_slots.specs.Held.{Alone};
ghost use Rattle.node_slots.specs.Wholes.{content_view};
ghost use Rattle.shared_store.specs.Lasting.{KeepsGenerations, Lasts};
ghost use Rattle.shared_store.specs.Sharing.{orders};
ghost use Rattle.shared_store.specs.Sifting.{sifted_of};

use crate::shared::Shared;
use group_sift::{Blocks, Sifted, sift, sift_e};
use node_store::{Order, Whole};

/// The sift of one of both orders.
fn sift_order<W: Whole>(w: &mut W, order: Order, blocks: &mut Blocks) -> Sifted
    requires idle { IsIdle (W.view w.old) }
    requires end { last_end 0 blocks.old ≡ length (in_order (W.view w.old).orders order) }
    ensures sifted { IsSifted W.others order blocks.old (W.view w.old) (W.view w.new) result }
    ensures blocks { blocks.new ≡ blocks.old }
{
    match order {
        Order::Variables => sift(w, blocks),
        Order::Elements => sift_e(w, blocks),
    }
}

impl Shared {
    /// Sifts an order in blocks (Rudell 1993), for the functions of the slots that are held and the permanent ones: `sift` of
    /// group_sift says how. Each slot that is held keeps its function, its count and its generation. The blocks end at the number
    /// of levels of the order.
    pub fn sift(self, order: Order, blocks: &mut Blocks) -> (Shared, Sifted)
        requires end { last_end 0 blocks.old ≡ length (in_order (orders self) order) }
        ensures sifted { IsSifted Alone order blocks.old (content_view self.store) (content_view result.0.store) result.1 }
        ensures blocks { blocks.new ≡ blocks.old }
        ensures lasts { Lasts self result.0 }
        ensures generations { KeepsGenerations self result.0 }
        ensures orders { orders result.0 ≡ with_order (orders self) order (sifted_of order blocks.old self).order }
    {
        self.store.tell_sound();
        let Shared { store, cells } = self;
        let (mut held, place) = store.hold();
        let sifted = sift_order(&mut held, order, blocks);
        let store = place.release(held);
        store.tell_sound();
        (Shared { store, cells }, sifted)
    }
}
