//! The list of those that a sift goes by.

ghost use Rattle.std.specs.Prelude.{◌≡◌, ◌+◌, ◌-◌, ◌<◌, ◌≤◌, ◌^◌, ◌++◌, ◌∷◌, [], length, map, slice_index, take, drop, vec_capacity, vec_len, ℕ};
ghost use Rattle.std.specs.List.{All};
ghost use Rattle.function_laws.specs.Sizes.{in_order};
ghost use Rattle.function_laws.specs.SiftedOrders.{default_ones, in_falling_width, is_default as default_mode};
ghost use Rattle.node_store.specs.Contents.{Content, number_of as number_in};
ghost use Rattle.group_sift.specs.Settled.{IsSettled, measure_at};
ghost use Rattle.group_sift.specs.Turns.{blocks_of, Rise, last_end, width_entry, some_ones};

use crate::turns::BlockEnd;
use edge_bits::FIRST_ELEMENT;
use function_laws::Mode;
use node_store::{Order, Whole};
use std::cmp::Reverse;

// What a variable number is in its order.
fn own_of(order: Order, number: u32) -> u32
    requires { (own : ℕ) × (number ≡ number_in order own) }
    ensures { (own : ℕ) → number ≡ number_in order own → result ≡ own }
{
    match order {
        Order::Variables => number,
        Order::Elements => number - FIRST_ELEMENT,
    }
}

// Lists what stands at a level, with its width.
fn list_level<W: Whole>(w: &mut W, order: Order, level: u32, list: &mut Vec<(Reverse<u32>, u32)>)
    ghost start: { Content }
    requires settled { IsSettled W.others order start (W.view w.old) }
    requires level { level < length (in_order (W.view w.old).orders order) }
    requires room { vec_len list.old < vec_capacity list.old }
    ensures settled { IsSettled W.others order start (W.view w.new) }
    ensures same { in_order (W.view w.new).orders order ≡ in_order (W.view w.old).orders order }
    ensures listed { list.new.items ≡ list.old.items ++ width_entry ((measure_at order start).width_of (in_order (W.view w.old).orders order)) (slice_index (in_order (W.view w.old).orders order) level) ∷ [] }
    ensures capacity { vec_capacity list.old ≤ vec_capacity list.new }
{
    let number = w.var_of(order, level);
    let width = w.nodes_of(order, level);
    let own = own_of(order, number);
    if list.push((Reverse(width), own)).is_err() {
        unreachable!()
    }
}

fn is_default(mode: Mode) -> bool
    ensures { result ≡ default_mode mode }
{
    match mode {
        Mode::Default => true,
        Mode::Fixed => false,
    }
}

// Lists what stands from a level up to another, unless it stays where it is.
fn list_block<W: Whole>(
    w: &mut W,
    order: Order,
    from: u32,
    to: u32,
    sifted: bool,
    list: &mut Vec<(Reverse<u32>, u32)>,
)
    ghost start: { Content }
    requires settled { IsSettled W.others order start (W.view w.old) }
    requires levels { from ≤ to }
    requires within { to ≤ length (in_order (W.view w.old).orders order) }
    requires room { vec_len list.old + (to - from) ≤ vec_capacity list.old }
    ensures settled { IsSettled W.others order start (W.view w.new) }
    ensures same { in_order (W.view w.new).orders order ≡ in_order (W.view w.old).orders order }
    ensures listed { list.new.items ≡ list.old.items ++ map (width_entry ((measure_at order start).width_of (in_order (W.view w.old).orders order))) (some_ones sifted (to - from) (drop from (in_order (W.view w.old).orders order))) }
    ensures capacity { vec_capacity list.old ≤ vec_capacity list.new }
{
    if !sifted {
        return;
    }
    for level in from..to {
        list_level(w, order, level, list);
    }
}

// Lists those of the default blocks.
fn list_blocks<W: Whole>(
    w: &mut W,
    order: Order,
    blocks: &[BlockEnd],
    list: &mut Vec<(Reverse<u32>, u32)>,
)
    ghost start: { Content }
    requires settled { IsSettled W.others order start (W.view w.old) }
    requires rise { Rise 0 (blocks_of blocks.now) }
    requires end { last_end 0 (blocks_of blocks.now) ≡ length (in_order (W.view w.old).orders order) }
    requires capacity { last_end 0 (blocks_of blocks.now) ≤ vec_capacity list.old }
    requires empty { list.old.items ≡ [] }
    ensures settled { IsSettled W.others order start (W.view w.new) }
    ensures same { in_order (W.view w.new).orders order ≡ in_order (W.view w.old).orders order }
    ensures listed { list.new.items ≡ map (width_entry ((measure_at order start).width_of (in_order (W.view w.old).orders order))) (default_ones 0 (blocks_of blocks.now) (in_order (W.view w.old).orders order)) }
    ensures few { length list.new.items ≤ length (in_order (W.view w.old).orders order) }
    ensures capacity { vec_capacity list.old ≤ vec_capacity list.new }
{
    let mut from = 0;
    for block in blocks {
        list_block(w, order, from, block.end, is_default(block.mode), list);
        from = block.end;
    }
}

// Lists those of the default blocks by falling width, equal ones by rising number.
pub(crate) fn list_widest<W: Whole>(
    w: &mut W,
    order: Order,
    blocks: &[BlockEnd],
    list: &mut Vec<(Reverse<u32>, u32)>,
)
    ghost start: { Content }
    requires settled { IsSettled W.others order start (W.view w.old) }
    requires rise { Rise 0 (blocks_of blocks.now) }
    requires end { last_end 0 (blocks_of blocks.now) ≡ length (in_order (W.view w.old).orders order) }
    requires capacity { last_end 0 (blocks_of blocks.now) ≤ vec_capacity list.old }
    ensures settled { IsSettled W.others order start (W.view w.new) }
    ensures same { in_order (W.view w.new).orders order ≡ in_order (W.view w.old).orders order }
    ensures listed { map (λ e. e.1) list.new.items ≡ in_falling_width ((measure_at order start).width_of (in_order (W.view w.old).orders order)) (default_ones 0 (blocks_of blocks.now) (in_order (W.view w.old).orders order)) }
    ensures numbers { All (λ e. e.1 < length (in_order (W.view w.old).orders order)) list.new.items }
    ensures few { length list.new.items ≤ FIRST_ELEMENT }
    ensures capacity { vec_capacity list.old ≤ vec_capacity list.new }
{
    list.clear();
    list_blocks(w, order, blocks, list);
    list.sort_unstable();
}
