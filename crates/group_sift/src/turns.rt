//! The turns of all that are sifted, one after another.

ghost use Rattle.std.specs.Prelude.{◌≡◌, ◌+◌, ◌<◌, ◌≤◌, ◌^◌, length, map, ℕ};
ghost use Rattle.std.specs.List.{All};
ghost use Rattle.function_laws.specs.Sizes.{in_order};
ghost use Rattle.function_laws.specs.SiftedOrders.{place_of as place_in, bounds_from, sift_one as one_sifted, sift_each as each_sifted};
ghost use Rattle.node_store.specs.Contents.{Content, number_of as number_in};
ghost use Rattle.group_sift.specs.Settled.{IsSettled, measure_at};
ghost use Rattle.group_sift.specs.Turns.{blocks_of, Rise, last_end};

use crate::trips::sift_one;
use edge_bits::FIRST_ELEMENT;
use function_laws::Mode;
use node_store::{Order, Whole};
use std::cmp::Reverse;

/// A block of neighbouring levels, up to this one.
#[derive(Debug, Clone, Copy, PartialEq, Eq)]
pub struct BlockEnd {
    pub end: u32,
    pub mode: Mode,
}

// The first and the last level of a level's block.
fn bounds(blocks: &[BlockEnd], level: u32) -> (u32, u32)
    requires { Rise 0 (blocks_of blocks.now) }
    ensures lo { result.0 ≡ (bounds_from 0 (blocks_of blocks.now) level).lo }
    ensures hi { result.1 ≡ (bounds_from 0 (blocks_of blocks.now) level).hi }
{
    let mut start = 0;
    for block in blocks {
        if level < block.end {
            return (start, block.end - 1);
        }
        start = block.end;
    }
    (level, level)
}

// What stands in an order as a variable number.
fn number_of(order: Order, own: u32) -> u32
    requires { own < FIRST_ELEMENT }
    ensures { result ≡ number_in order own }
{
    match order {
        Order::Variables => own,
        Order::Elements => FIRST_ELEMENT + own,
    }
}

// The level of a variable or an element.
fn level_of<W: Whole>(w: &mut W, order: Order, own: u32) -> u32
    ghost start: { Content }
    requires settled { IsSettled W.others order start (W.view w.old) }
    requires own { own < length (in_order (W.view w.old).orders order) }
    ensures settled { IsSettled W.others order start (W.view w.new) }
    ensures same { in_order (W.view w.new).orders order ≡ in_order (W.view w.old).orders order }
    ensures place { result ≡ place_in own (in_order (W.view w.old).orders order) }
{
    let number = number_of(order, own);
    let mut level = 0;
    'levels: while w.var_of(order, level) != number {
        level += 1;
    }
    level
}

// Sifts one of an order in its block.
fn sift_number<W: Whole>(w: &mut W, order: Order, blocks: &[BlockEnd], own: u32) -> u32
    ghost start: { Content }
    requires settled { IsSettled W.others order start (W.view w.old) }
    requires own { own < length (in_order (W.view w.old).orders order) }
    requires rise { Rise 0 (blocks_of blocks.now) }
    requires end { last_end 0 (blocks_of blocks.now) ≤ length (in_order (W.view w.old).orders order) }
    ensures settled { IsSettled W.others order start (W.view w.new) }
    ensures order { (swaps : ℕ) → in_order (W.view w.new).orders order ≡ (one_sifted (measure_at order start) start.limit (blocks_of blocks.now) own (record { order = in_order (W.view w.old).orders order; swaps = swaps })).order }
    ensures swaps { (swaps : ℕ) → swaps + result ≡ (one_sifted (measure_at order start) start.limit (blocks_of blocks.now) own (record { order = in_order (W.view w.old).orders order; swaps = swaps })).swaps }
    ensures few { result < 2 ^ 17 }
    ensures never_larger { (measure_at order start).size_of (in_order (W.view w.new).orders order) ≤ (measure_at order start).size_of (in_order (W.view w.old).orders order) }
{
    let level = level_of(w, order, own);
    let within = bounds(blocks, level);
    sift_one(w, order, within.0, within.1, level)
}

// Sifts those that are listed, one after another. It tells the number of swaps.
pub(crate) fn sift_each<W: Whole>(
    w: &mut W,
    order: Order,
    blocks: &[BlockEnd],
    list: &[(Reverse<u32>, u32)],
) -> u64
    ghost start: { Content }
    requires settled { IsSettled W.others order start (W.view w.old) }
    requires numbers { All (λ e. e.1 < length (in_order start.orders order)) list.now }
    requires few { length list.now ≤ FIRST_ELEMENT }
    requires rise { Rise 0 (blocks_of blocks.now) }
    requires end { last_end 0 (blocks_of blocks.now) ≤ length (in_order start.orders order) }
    ensures settled { IsSettled W.others order start (W.view w.new) }
    ensures order { in_order (W.view w.new).orders order ≡ (each_sifted (measure_at order start) start.limit (blocks_of blocks.now) (map (λ e. e.1) list.now) (record { order = in_order (W.view w.old).orders order; swaps = 0 })).order }
    ensures swaps { result ≡ (each_sifted (measure_at order start) start.limit (blocks_of blocks.now) (map (λ e. e.1) list.now) (record { order = in_order (W.view w.old).orders order; swaps = 0 })).swaps }
    ensures never_larger { (measure_at order start).size_of (in_order (W.view w.new).orders order) ≤ (measure_at order start).size_of (in_order (W.view w.old).orders order) }
{
    let mut swaps = 0;
    for entry in list {
        swaps += u64::from(sift_number(w, order, blocks, entry.1));
    }
    swaps
}
