//! The marking of a sweep.

ghost use Rattle.std.specs.Prelude.{◌≡◌, ◌<◌, Some, None, length};
ghost use Rattle.function_laws.specs.Sizes.{in_order};
ghost use Rattle.edge_bits.specs.declared.words.Node.{Node as NodeOf};
ghost use Rattle.edge_bits.specs.declared.words.Word.TheVariants as words;
ghost use Rattle.node_store.specs.Contents.{IsSound, IsUsed};
ghost use Rattle.node_store.specs.Changes.{After};
ghost use Rattle.dead_sweep.specs.Marks.{is_live as live_of, is_live_leaf as live_leaf, OnlyMarks, StepsNode, StepsSlot, StepsLevel, StepsOrder, StepsLeaf, StepsLeaves, StepsAll};

use edge_bits::{Edge, FIRST_PROJECTION, TRUE_SLOT};
use node_store::{Opened, Order, Whole};

// Whether a node is to be marked: it is held, a live node's child, or a projection.
fn is_live(count: u32, marked: bool, hi: Edge, lo: Edge) -> bool
    ensures { result ≡ live_of count marked hi lo }
{
    count > 0
        || (marked || (hi.index() == TRUE_SLOT && (lo.index() == TRUE_SLOT && lo.complement())))
}

// Marks a node with its children, if it is live.
fn mark_node<W: Whole>(w: &mut W, slot: u32, hi: Edge, lo: Edge)
    requires sound { IsSound (W.view w.old) }
    requires slot { IsUsed (W.view w.old) slot }
    requires hi { IsUsed (W.view w.old) hi.index }
    requires lo { IsUsed (W.view w.old) lo.index }
    ensures same { After W.others (record (W.view w.old) { marked = (W.view w.new).marked }) (W.view w.new) }
    ensures step { StepsNode W.others (W.view w.old) (W.view w.new) slot hi lo }
{
    let count = w.count_of(slot);
    let marked = w.is_marked(slot);
    if is_live(count, marked, hi, lo) {
        w.mark(slot);
        w.mark(hi.index());
        w.mark(lo.index());
    }
}

// The same for the node of a slot.
fn mark_slot<W: Whole>(w: &mut W, slot: u32)
    requires sound { IsSound (W.view w.old) }
    requires whole { (W.view w.old).half ≡ None }
    requires node { (node : NodeOf) × ((W.view w.old).word slot ≡ Some (words.Inner node)) }
    ensures same { OnlyMarks W.others (W.view w.old) (W.view w.new) }
    ensures step { StepsSlot W.others (W.view w.old) (W.view w.new) slot }
{
    match w.open(Edge::new(slot, false)) {
        Opened::Inner(_, hi, lo) => mark_node(w, slot, hi, lo),
        Opened::Leaf(_) => {}
    }
}

// The same for each node of a level.
fn mark_level<W: Whole>(w: &mut W, order: Order, level: u32)
    requires sound { IsSound (W.view w.old) }
    requires whole { (W.view w.old).half ≡ None }
    requires level { level < length (in_order (W.view w.old).orders order) }
    ensures same { OnlyMarks W.others (W.view w.old) (W.view w.new) }
    ensures step { StepsLevel W.others (W.view w.old) (W.view w.new) order level }
{
    let mut from = 0;
    'slots: while let Some(slot) = w.next_of(order, level, from) {
        mark_slot(w, slot);
        from = slot + 1;
    }
}

// The same for each level of an order.
fn mark_order<W: Whole>(w: &mut W, order: Order)
    requires sound { IsSound (W.view w.old) }
    requires whole { (W.view w.old).half ≡ None }
    ensures same { OnlyMarks W.others (W.view w.old) (W.view w.new) }
    ensures step { StepsOrder W.others (W.view w.old) (W.view w.new) order }
{
    let levels = w.levels_of(order);
    for level in 0..levels {
        mark_level(w, order, level);
    }
}

fn is_live_leaf(count: u32, slot: u32) -> bool
    ensures { result ≡ live_leaf count slot }
{
    count > 0 || slot < FIRST_PROJECTION
}

// Marks a leaf, if it is held or permanent.
fn mark_leaf<W: Whole>(w: &mut W, slot: u32)
    requires sound { IsSound (W.view w.old) }
    requires used { IsUsed (W.view w.old) slot }
    ensures same { OnlyMarks W.others (W.view w.old) (W.view w.new) }
    ensures step { StepsLeaf W.others (W.view w.old) (W.view w.new) slot }
{
    let count = w.count_of(slot);
    if is_live_leaf(count, slot) {
        w.mark(slot);
    }
}

// The same for each leaf.
fn mark_leaves<W: Whole>(w: &mut W)
    requires sound { IsSound (W.view w.old) }
    ensures same { OnlyMarks W.others (W.view w.old) (W.view w.new) }
    ensures step { StepsLeaves W.others (W.view w.old) (W.view w.new) }
{
    let mut from = 0;
    'leaves: while let Some(slot) = w.next_leaf(from) {
        mark_leaf(w, slot);
        from = slot + 1;
    }
}

// Marks all slots that are reached.
pub(crate) fn mark_all<W: Whole>(w: &mut W)
    requires sound { IsSound (W.view w.old) }
    requires whole { (W.view w.old).half ≡ None }
    ensures same { OnlyMarks W.others (W.view w.old) (W.view w.new) }
    ensures step { StepsAll W.others (W.view w.old) (W.view w.new) }
{
    mark_order(w, Order::Variables);
    mark_order(w, Order::Elements);
    mark_leaves(w);
}
