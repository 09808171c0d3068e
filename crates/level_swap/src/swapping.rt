//! The swap of two neighbouring levels in place (Rudell 1993).

ghost use Rattle.std.specs.Prelude.{◌≡◌, ◌+◌, ◌≤◌, ◌<◌, None, length};
ghost use Rattle.function_laws.specs.Sizes.{in_order};
ghost use Rattle.node_store.specs.Contents.{used_slots};
ghost use Rattle.node_store.specs.Changes.{After};
ghost use Rattle.level_swap.specs.Swaps.{needed, HasRoomBack, IsSwapped};

use crate::upper_nodes::swap_slot;
use node_store::{Order, Whole};

/// How many free slots the swap of a level and the next asks for: twice the nodes of the level, and those of the next. `level + 1` is below
/// the levels.
pub fn need_of<W: Whole>(w: &mut W, order: Order, level: u32) -> u32
    requires level { level + 1 < length (in_order (W.view w.old).orders order) }
    ensures after { After W.others (W.view w.old) (W.view w.new) }
    ensures need { result ≡ needed (W.view w.old) order level }
{
    let upper = w.nodes_of(order, level);
    let lower = w.nodes_of(order, level + 1);
    upper + upper + lower
}

/// Exchanges a level and the next in place (Rudell 1993; `cuddSwapInPlace` of CUDD 3.0). A node of the upper one with a child of the
/// lower one becomes, in its slot, a node of the lower one over two nodes of the upper one; all other nodes stay. So each slot in
/// use keeps its function, its generation and its count. Nothing is freed. `level + 1` is below the levels, no swap is half made,
/// and as many slots are free as `need_of` tells. It takes no memory and refuses nothing.
pub fn swap_of<W: Whole>(w: &mut W, order: Order, level: u32)
    requires whole { (W.view w.old).half ≡ None }
    requires level { level + 1 < length (in_order (W.view w.old).orders order) }
    requires room { used_slots (W.view w.old) + needed (W.view w.old) order level ≤ (W.view w.old).limit }
    ensures { IsSwapped W.others order level (W.view w.old) (W.view w.new) }
{
    let _ = w.in_use();
    swap_back_of(w, order, level)
}

/// The same exchange with less room, as on the way back of a sift: for the functions that rewritten nodes get as children and that no
/// edge denotes yet, a function and its complement counted as one.
pub fn swap_back_of<W: Whole>(w: &mut W, order: Order, level: u32)
    requires whole { (W.view w.old).half ≡ None }
    requires level { level + 1 < length (in_order (W.view w.old).orders order) }
    requires room { HasRoomBack (W.view w.old) order level }
    ensures { IsSwapped W.others order level (W.view w.old) (W.view w.new) }
{
    let upper = w.var_of(order, level);
    let lower = w.var_of(order, level + 1);
    let mut from = 0;
    'slots: while let Some(slot) = w.next_of(order, level, from) {
        swap_slot(w, upper, lower, slot);
        from = slot + 1;
    }
    w.exchange(order, level)
}

/// How many free slots `swap` asks for: twice the nodes of the level, and those of the next.
pub fn need<W: Whole>(w: &mut W, level: u32) -> u32
    requires level { level + 1 < length (in_order (W.view w.old).orders Order.Variables) }
    ensures after { After W.others (W.view w.old) (W.view w.new) }
    ensures need { result ≡ needed (W.view w.old) Order.Variables level }
{
    need_of(w, Order::Variables, level)
}

/// How many free slots `swap_e` asks for: twice the nodes of the level, and those of the next.
pub fn need_e<W: Whole>(w: &mut W, level: u32) -> u32
    requires level { level + 1 < length (in_order (W.view w.old).orders Order.Elements) }
    ensures after { After W.others (W.view w.old) (W.view w.new) }
    ensures need { result ≡ needed (W.view w.old) Order.Elements level }
{
    need_of(w, Order::Elements, level)
}

/// Exchanges a level and the next of the variables, as `swap_of` does.
pub fn swap<W: Whole>(w: &mut W, level: u32)
    requires whole { (W.view w.old).half ≡ None }
    requires level { level + 1 < length (in_order (W.view w.old).orders Order.Variables) }
    requires room { used_slots (W.view w.old) + needed (W.view w.old) Order.Variables level ≤ (W.view w.old).limit }
    ensures { IsSwapped W.others Order.Variables level (W.view w.old) (W.view w.new) }
{
    swap_of(w, Order::Variables, level)
}

/// Exchanges a level and the next of the elements, as `swap_of` does.
pub fn swap_e<W: Whole>(w: &mut W, level: u32)
    requires whole { (W.view w.old).half ≡ None }
    requires level { level + 1 < length (in_order (W.view w.old).orders Order.Elements) }
    requires room { used_slots (W.view w.old) + needed (W.view w.old) Order.Elements level ≤ (W.view w.old).limit }
    ensures { IsSwapped W.others Order.Elements level (W.view w.old) (W.view w.new) }
{
    swap_of(w, Order::Elements, level)
}

/// Exchanges a level and the next of the variables with less room, as `swap_back_of` does.
pub fn swap_back<W: Whole>(w: &mut W, level: u32)
    requires whole { (W.view w.old).half ≡ None }
    requires level { level + 1 < length (in_order (W.view w.old).orders Order.Variables) }
    requires room { HasRoomBack (W.view w.old) Order.Variables level }
    ensures { IsSwapped W.others Order.Variables level (W.view w.old) (W.view w.new) }
{
    swap_back_of(w, Order::Variables, level)
}

/// Exchanges a level and the next of the elements with less room, as `swap_back_of` does.
pub fn swap_back_e<W: Whole>(w: &mut W, level: u32)
    requires whole { (W.view w.old).half ≡ None }
    requires level { level + 1 < length (in_order (W.view w.old).orders Order.Elements) }
    requires room { HasRoomBack (W.view w.old) Order.Elements level }
    ensures { IsSwapped W.others Order.Elements level (W.view w.old) (W.view w.new) }
{
    swap_back_of(w, Order::Elements, level)
}
