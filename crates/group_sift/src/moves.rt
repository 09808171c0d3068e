//! Moves of one variable or element over its neighbours.

ghost use Rattle.std.specs.Prelude.{◌≡◌, ◌+◌, ◌*◌, ◌<◌, ◌≤◌, nat_le, length, slice_index};
ghost use Rattle.std.specs.List.{swap};
ghost use Rattle.function_laws.specs.Sizes.{in_order};
ghost use Rattle.node_store.specs.Contents.{Content};
ghost use Rattle.group_sift.specs.Trips.{CanSwap, asked};
ghost use Rattle.group_sift.specs.Settled.{Trip, measure_at, IsSettled, IsAt, IsWayOpen};

use crate::frees::free_level;
use level_swap::{need_of, swap_back_of};
use node_store::{Order, Whole};

// Whether there is room for the swap of a level and the next.
pub(crate) fn has_reserve<W: Whole>(w: &mut W, order: Order, level: u32) -> bool
    ghost start: { Content }
    requires settled { IsSettled W.others order start (W.view w.old) }
    requires level { level + 1 < length (in_order (W.view w.old).orders order) }
    ensures settled { IsSettled W.others order start (W.view w.new) }
    ensures same { in_order (W.view w.new).orders order ≡ in_order (W.view w.old).orders order }
    ensures reserve { result ≡ nat_le (asked (measure_at order start) (in_order (W.view w.old).orders order) level) start.limit }
{
    let room = w.room();
    need_of(w, order, level) <= room
}

// Exchanges a level and the next, where there is room, and frees what lost its last name.
pub(crate) fn exchange_and_sweep<W: Whole>(w: &mut W, order: Order, level: u32) -> u32
    ghost start: { Content }
    requires settled { IsSettled W.others order start (W.view w.old) }
    requires level { level + 1 < length (in_order (W.view w.old).orders order) }
    requires room { CanSwap (measure_at order start) start.limit (in_order (W.view w.old).orders order) level }
    ensures settled { IsSettled W.others order start (W.view w.new) }
    ensures exchanged { in_order (W.view w.new).orders order ≡ swap (in_order (W.view w.old).orders order) level (level + 1) }
    ensures size { result ≡ (measure_at order start).size_of (in_order (W.view w.new).orders order) }
    ensures few { result ≤ (measure_at order start).size_of (in_order (W.view w.old).orders order) + 2 * (measure_at order start).width_of (in_order (W.view w.old).orders order) (slice_index (in_order (W.view w.old).orders order) level) }
{
    swap_back_of(w, order, level);
    w.sweep_in();
    free_level(w, order, level);
    w.sweep_out();
    w.in_use()
}

// Takes what stands at a place down to another, over places that were met.
pub(crate) fn go_down<W: Whole>(w: &mut W, order: Order, from: u32, to: u32)
    ghost trip: { Trip }
    requires at { IsAt W.others order trip from (W.view w.old) }
    requires free { IsWayOpen order trip from to }
    requires below { from ≤ to }
    requires within { to < length trip.list }
    ensures { IsAt W.others order trip to (W.view w.new) }
{
    for level in from..to {
        let _ = exchange_and_sweep(w, order, level);
    }
}

// The same up.
pub(crate) fn go_up<W: Whole>(w: &mut W, order: Order, from: u32, to: u32)
    ghost trip: { Trip }
    requires at { IsAt W.others order trip from (W.view w.old) }
    requires free { IsWayOpen order trip to from }
    requires above { to ≤ from }
    ensures { IsAt W.others order trip to (W.view w.new) }
{
    let mut level = from;
    'levels: while level > to {
        level -= 1;
        let _ = exchange_and_sweep(w, order, level);
    }
}
