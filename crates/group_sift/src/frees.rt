//! The freeing of what a swap left without a name.

ghost use Rattle.std.specs.Prelude.{◌≡◌, ◌+◌, ◌<◌, ℕ, length};
ghost use Rattle.function_laws.specs.Sizes.{in_order};
ghost use Rattle.node_store.specs.Contents.{Content, var_at};
ghost use Rattle.dead_sweep.specs.Marks.{is_live};
ghost use Rattle.group_sift.specs.Passes.{IsLoose, Passing, PassesSlot};

use edge_bits::{Edge, TRUE_SLOT};
use node_store::{Opened, Order, Whole};

// Whether a node stays: it is held, named or a projection.
fn stays(count: u32, named: bool, hi: Edge, lo: Edge) -> bool
    ensures { result ≡ is_live count named hi lo }
{
    count > 0
        || (named || (hi.index() == TRUE_SLOT && (lo.index() == TRUE_SLOT && lo.complement())))
}

// Frees a node unless it stays.
fn free_unnamed<W: Whole>(w: &mut W, slot: u32)
    requires { (start : Content) × (v : ℕ) × PassesSlot W.others start v (W.view w.old) slot }
    ensures { (start : Content) (v : ℕ) → PassesSlot W.others start v (W.view w.old) slot → Passing W.others start v (W.view w.new) (slot + 1) }
{
    let named = w.is_named(slot);
    let count = w.count_of(slot);
    if let Opened::Inner(_, hi, lo) = w.open(Edge::new(slot, false)) {
        if !stays(count, named, hi, lo) {
            w.free(slot);
        }
    }
}

// Frees the nodes of a level that do not stay.
pub(crate) fn free_level<W: Whole>(w: &mut W, order: Order, level: u32)
    requires level { level < length (in_order (W.view w.old).orders order) }
    requires loose { IsLoose (W.view w.old) (var_at (W.view w.old) order level) }
    ensures { Passing W.others (W.view w.old) (var_at (W.view w.old) order level) (W.view w.new) (W.view w.old).limit }
{
    let mut from = 0;
    'slots: while let Some(slot) = w.next_of(order, level, from) {
        free_unnamed(w, slot);
        from = slot + 1;
    }
}
