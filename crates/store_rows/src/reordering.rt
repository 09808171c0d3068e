//! What changes an order.

ghost use Rattle.std.specs.Prelude.{◌≡◌, ◌+◌, ◌<◌, length, IfOk};
ghost use Rattle.function_laws.specs.SiftedOrders.{with_order};
ghost use Rattle.function_laws.specs.Sizes.{in_order};
ghost use Rattle.group_sift.specs.Sifts.{IsSifted};
ghost use Rattle.group_sift.specs.Turns.{last_end, one_block as block_of};
ghost use Rattle.node_slots.specs.Held.{Alone};
ghost use Rattle.node_slots.specs.Wholes.{content_view};
ghost use Rattle.store_upkeep.specs.Lasting.{orders_of};
ghost use Rattle.store_upkeep.specs.Reordering.{Reorders, orders_left};
ghost use Rattle.store_upkeep.specs.Sifting.{sifted_of};
ghost use Rattle.store_rows.specs.RowStores.{Same};

use crate::row_store::RowStore;
use edge_bits::Memory;
use group_sift::{Blocks, Sifted};
use node_store::Order;
use store_upkeep::{Crowded, sift_order, swap_levels};

impl RowStore {
    /// One block of so many levels, none for 0, in which an order is sifted.
    pub fn one_block(&self, levels: u32) -> Result<Blocks, Memory>
        ensures { IfOk result (λ blocks. blocks ≡ block_of levels) }
    {
        Blocks::one(self.alloc, levels)
    }

    /// Sweeps, and then exchanges a level of an order and the next in place (Rudell 1993), where as many slots are free as the exchange
    /// asks for: twice the nodes of the level, and those of the next. Else nothing more is changed. Each row keeps its function.
    /// `level + 1` is a level of the order.
    pub fn swap(self, order: Order, level: u32) -> (RowStore, Result<(), Crowded>)
        requires { level + 1 < length (in_order (orders_of self.store) order) }
        ensures same { Same self result.0 }
        ensures reorders { Reorders Alone order level (content_view self.store) (content_view result.0.store) result.1 }
        ensures orders { orders_of result.0.store ≡ orders_left order level (orders_of self.store) result.1 }
    {
        let RowStore {
            alloc,
            store,
            rows,
            made,
        } = self;
        let (left, done) = swap_levels(store, order, level);
        (
            RowStore {
                alloc,
                store: left,
                rows,
                made,
            },
            done,
        )
    }

    /// Sifts an order in blocks (Rudell 1993), for the functions of the rows and the permanent ones: `sift` of group_sift says how. Each
    /// row keeps its function. The blocks end at the number of levels of the order. It takes no memory and refuses nothing.
    pub fn sift(self, order: Order, blocks: &mut Blocks) -> (RowStore, Sifted)
        requires { last_end 0 blocks.old ≡ length (in_order (orders_of self.store) order) }
        ensures same { Same self result.0 }
        ensures sifted { IsSifted Alone order blocks.old (content_view self.store) (content_view result.0.store) result.1 }
        ensures blocks { blocks.new ≡ blocks.old }
        ensures orders { orders_of result.0.store ≡ with_order (orders_of self.store) order (sifted_of order blocks.old self.store).order }
    {
        let RowStore {
            alloc,
            store,
            rows,
            made,
        } = self;
        let (left, sifted) = sift_order(store, order, blocks);
        (
            RowStore {
                alloc,
                store: left,
                rows,
                made,
            },
            sifted,
        )
    }
}
