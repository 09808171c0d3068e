//! The sift of an order.

ghost use Rattle.std.specs.Prelude.{◌≡◌, false, length};
ghost use Rattle.function_laws.specs.SiftedOrders.{with_order};
ghost use Rattle.function_laws.specs.Sizes.{in_order};
ghost use Rattle.group_sift.specs.Sifts.{IsIdle, IsSifted};
ghost use Rattle.group_sift.specs.Turns.{last_end};
ghost use Rattle.node_slots.specs.Held.{Alone};
ghost use Rattle.node_slots.specs.Stores.{is_held};
ghost use Rattle.node_slots.specs.Wholes.{content_view};
ghost use Rattle.store_upkeep.specs.Lasting.{Lasts, orders_of};
ghost use Rattle.store_upkeep.specs.Sifting.{sifted_of};

use group_sift::{Blocks, Sifted, sift, sift_e};
use node_slots::PlainStore;
use node_store::{Order, Whole};

/// The sift of one of both orders.
fn sift_held<W: Whole>(w: &mut W, order: Order, blocks: &mut Blocks) -> Sifted
    requires idle { IsIdle (W.view w.old) }
    requires end { last_end 0 blocks.old ≡ length (in_order (W.view w.old).orders order) }
    ensures sifted { IsSifted W.others order blocks.old (W.view w.old) (W.view w.new) result }
    ensures blocks { blocks.new ≡ blocks.old }
{
    match order {
        Order::Variables => sift(w, blocks),
        Order::Elements => sift_e(w, blocks),
    }
}

/// Sifts an order in blocks (Rudell 1993), for the functions of the slots that are counted and the permanent ones: `sift` of group_sift
/// says how. Each counted slot keeps its function and its count. The blocks end at the number of levels of the order.
pub fn sift_order(store: PlainStore, order: Order, blocks: &mut Blocks) -> (PlainStore, Sifted)
    requires rest { is_held store ≡ false }
    requires end { last_end 0 blocks.old ≡ length (in_order (orders_of store) order) }
    ensures sifted { IsSifted Alone order blocks.old (content_view store) (content_view result.0) result.1 }
    ensures blocks { blocks.new ≡ blocks.old }
    ensures rest { is_held result.0 ≡ false }
    ensures lasts { Lasts store result.0 }
    ensures orders { orders_of result.0 ≡ with_order (orders_of store) order (sifted_of order blocks.old store).order }
{
    store.tell_sound();
    let mut held = store.hold();
    let sifted = sift_held(&mut held, order, blocks);
    let left = held.release();
    left.tell_sound();
    (left, sifted)
}
