//! The freeing of a sweep.

ghost use Rattle.std.specs.Prelude.{◌≡◌, ◌+◌, ◌<◌, length};
ghost use Rattle.function_laws.specs.Sizes.{in_order};
ghost use Rattle.node_store.specs.Contents.{Content, IsUsed};
ghost use Rattle.dead_sweep.specs.Marks.{rank_at};
ghost use Rattle.dead_sweep.specs.Frees.{Ready, Freed, slot_rank};

use node_store::{Order, Whole};

// Frees a slot that isn't marked.
fn free_slot<W: Whole>(w: &mut W, slot: u32)
    ghost start: { Content }
    requires ready { Ready start }
    requires used { IsUsed start slot }
    requires freed { Freed W.others start (W.view w.old) (slot_rank start slot) slot }
    ensures { Freed W.others start (W.view w.new) (slot_rank start slot) (slot + 1) }
{
    if !w.is_marked(slot) {
        w.free(slot);
    }
}

// Frees the nodes of a level that aren't marked.
fn free_level<W: Whole>(w: &mut W, order: Order, level: u32)
    ghost start: { Content }
    requires ready { Ready start }
    requires level { level < length (in_order start.orders order) }
    requires freed { Freed W.others start (W.view w.old) (rank_at start.orders order level) 0 }
    ensures { Freed W.others start (W.view w.new) (rank_at start.orders order level + 1) 0 }
{
    let mut from = 0;
    'slots: while let Some(slot) = w.next_of(order, level, from) {
        free_slot(w, slot);
        from = slot + 1;
    }
}

// The same for each level of an order.
fn free_order<W: Whole>(w: &mut W, order: Order)
    ghost start: { Content }
    requires ready { Ready start }
    requires freed { Freed W.others start (W.view w.old) (rank_at start.orders order 0) 0 }
    ensures { Freed W.others start (W.view w.new) (rank_at start.orders order (length (in_order start.orders order))) 0 }
{
    let levels = w.levels_of(order);
    for level in 0..levels {
        free_level(w, order, level);
    }
}

// The same for each leaf.
fn free_leaves<W: Whole>(w: &mut W)
    ghost start: { Content }
    requires ready { Ready start }
    requires freed { Freed W.others start (W.view w.old) (length start.orders.variables + length start.orders.elements) 0 }
    ensures { Freed W.others start (W.view w.new) (length start.orders.variables + length start.orders.elements + 1) 0 }
{
    let mut from = 0;
    'leaves: while let Some(slot) = w.next_leaf(from) {
        free_slot(w, slot);
        from = slot + 1;
    }
}

// Frees all slots that aren't marked.
pub(crate) fn free_all<W: Whole>(w: &mut W)
    ghost start: { Content }
    requires ready { Ready start }
    requires freed { Freed W.others start (W.view w.old) 0 0 }
    ensures { Freed W.others start (W.view w.new) (length start.orders.variables + length start.orders.elements + 1) 0 }
{
    free_order(w, Order::Variables);
    free_order(w, Order::Elements);
    free_leaves(w);
}
