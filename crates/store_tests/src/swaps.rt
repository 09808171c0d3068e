//! Swaps of neighbouring levels, over a store in its holder's hands: what is in use, the order, and that functions stay.

ghost use Rattle.std.specs.Prelude.{◌≡◌, ◌<◌, None, false};
ghost use Rattle.node_slots.specs.Stores.{is_held, plain_view};

use crate::pairs::{counted_family, counted_function, has_pairs, has_unions};
use dead_sweep::sweep;
use edge_bits::{Edge, FIRST_ELEMENT};
use level_swap::{need_of, swap_of};
use node_slots::PlainStore;
use node_store::{Order, Whole};
use std::process::Abort;
use std::test::Fail;

/// What a swap between two sweeps is told: the slots in use after either, and the need.
#[derive(Debug, Clone, Copy, PartialEq, Eq, Drop)]
struct Told {
    before: u32,
    need: u32,
    after: u32,
}

/// Sees that a variable, or an element, stands at a level.
pub fn stands_at<W: Whole>(rt: &impl Abort, w: &mut W, order: Order, level: u32, wanted: u32)
    ensures sweeping { (W.view w.new).sweeping ≡ (W.view w.old).sweeping }
    ensures half { (W.view w.new).half ≡ (W.view w.old).half }
{
    if level >= w.levels_of(order) {
        panic!(rt; "no such level");
    }
    let number = w.var_of(order, level);
    let own = match order {
        Order::Variables => number,
        Order::Elements => number % FIRST_ELEMENT,
    };
    assert!(rt; own == wanted);
}

/// Sees which four stand in an order.
pub fn stand_as<W: Whole>(rt: &impl Abort, w: &mut W, order: Order, wanted: [u32; 4])
    ensures sweeping { (W.view w.new).sweeping ≡ (W.view w.old).sweeping }
    ensures half { (W.view w.new).half ≡ (W.view w.old).half }
{
    stands_at(rt, w, order, 0, wanted[0]);
    stands_at(rt, w, order, 1, wanted[1]);
    stands_at(rt, w, order, 2, wanted[2]);
    stands_at(rt, w, order, 3, wanted[3]);
}

/// Swaps a level and the next between two sweeps.
fn swap_swept<W: Whole>(rt: &impl Abort, w: &mut W, order: Order, level: u32) -> Told
    requires sweeping { (W.view w.old).sweeping ≡ false }
    requires half { (W.view w.old).half ≡ None }
    requires level { level < 4 }
    ensures sweeping { (W.view w.new).sweeping ≡ false }
    ensures half { (W.view w.new).half ≡ None }
{
    let before = sweep(w).in_use;
    if level + 1 >= w.levels_of(order) {
        panic!(rt; "no level below");
    }
    let need = need_of(w, order, level);
    if w.room() < need {
        panic!(rt; "no room for a swap");
    }
    swap_of(w, order, level);
    let after = sweep(w).in_use;
    Told {
        before,
        need,
        after,
    }
}

/// The same of a store that is handed over for it and given back, where the four of the order then stand so.
fn swap_in(
    rt: &impl Abort,
    store: PlainStore,
    order: Order,
    level: u32,
    told: Told,
    wanted: [u32; 4],
) -> PlainStore
    requires idle { store.sweeping ≡ false }
    requires level { level < 4 }
    ensures { result.sweeping ≡ false }
{
    let mut held = store.hold();
    assert!(rt; swap_swept(rt, &mut held, order, level) == told);
    stand_as(rt, &mut held, order, wanted);
    held.release()
}

/// Swaps the middle levels of the function of pairs, and swaps them back.
fn swap_function(rt: &impl Abort, store: PlainStore)
    requires idle { is_held store ≡ false }
{
    let mut store = store;
    let edge = counted_function(rt, &mut store);
    has_pairs(rt, &store, edge);
    let there = Told {
        before: 13,
        need: 8,
        after: 12,
    };
    let store = swap_in(rt, store, Order::Variables, 1, there, [0, 2, 1, 3]);
    has_pairs(rt, &store, edge);
    let back = Told {
        before: 12,
        need: 6,
        after: 13,
    };
    let store = swap_in(rt, store, Order::Variables, 1, back, [0, 1, 2, 3]);
    has_pairs(rt, &store, edge);
}

#[test]
fn a_function_of_pairs_is_swapped_and_swapped_back(rt: HostRuntime) -> Result<(), Fail> {
    let store = PlainStore::new(rt.alloc(), 4, 0, 1_000)?;
    swap_function(&rt, store);
    Ok(())
}

/// The same of the family of unions.
fn swap_family(rt: &impl Abort, store: PlainStore)
    requires idle { is_held store ≡ false }
    requires elements { (plain_view store).elements ≡ 4 }
{
    let mut store = store;
    let edge = counted_family(rt, &mut store);
    has_unions(rt, &store, edge);
    let there = Told {
        before: 11,
        need: 6,
        after: 9,
    };
    let store = swap_in(rt, store, Order::Elements, 1, there, [0, 2, 1, 3]);
    has_unions(rt, &store, edge);
    let back = Told {
        before: 9,
        need: 3,
        after: 11,
    };
    let store = swap_in(rt, store, Order::Elements, 1, back, [0, 1, 2, 3]);
    has_unions(rt, &store, edge);
}

#[test]
fn a_family_of_unions_is_swapped_and_swapped_back(rt: HostRuntime) -> Result<(), Fail> {
    let store = PlainStore::new(rt.alloc(), 0, 4, 1_000)?;
    swap_family(&rt, store);
    Ok(())
}

/// Swaps a level and the next, and sees that the function of pairs stays.
fn swap_and_see(rt: &impl Abort, store: PlainStore, edge: Edge, level: u32) -> PlainStore
    requires idle { store.sweeping ≡ false }
    requires level { level < 4 }
    ensures { result.sweeping ≡ false }
{
    let mut held = store.hold();
    let _told = swap_swept(rt, &mut held, Order::Variables, level);
    let store = held.release();
    has_pairs(rt, &store, edge);
    store
}

/// Turns the order of the function of pairs round, swap by swap.
fn turn_round(rt: &impl Abort, store: PlainStore)
    requires idle { is_held store ≡ false }
{
    let mut store = store;
    let edge = counted_function(rt, &mut store);
    let store = swap_and_see(rt, store, edge, 0);
    let store = swap_and_see(rt, store, edge, 1);
    let store = swap_and_see(rt, store, edge, 2);
    let store = swap_and_see(rt, store, edge, 0);
    let store = swap_and_see(rt, store, edge, 1);
    let store = swap_and_see(rt, store, edge, 0);
    let mut held = store.hold();
    stand_as(rt, &mut held, Order::Variables, [3, 2, 1, 0]);
}

#[test]
fn a_function_stays_while_its_order_is_turned_round(rt: HostRuntime) -> Result<(), Fail> {
    let store = PlainStore::new(rt.alloc(), 4, 0, 1_000)?;
    turn_round(&rt, store);
    Ok(())
}

/// Swaps two variables without another node.
fn swap_two(rt: &impl Abort, store: PlainStore)
    requires idle { is_held store ≡ false }
{
    let mut held = store.hold();
    let told = Told {
        before: 7,
        need: 3,
        after: 7,
    };
    assert!(rt; swap_swept(rt, &mut held, Order::Variables, 0) == told);
    stands_at(rt, &mut held, Order::Variables, 0, 1);
    stands_at(rt, &mut held, Order::Variables, 1, 0);
}

#[test]
fn two_variables_are_swapped(rt: HostRuntime) -> Result<(), Fail> {
    let store = PlainStore::new(rt.alloc(), 2, 0, 10)?;
    swap_two(&rt, store);
    Ok(())
}

/// Sees that two slots are free, and that a swap asks for three.
fn lacks_one<W: Whole>(rt: &impl Abort, w: &mut W) {
    if w.levels_of(Order::Variables) != 2 {
        panic!(rt; "not two variables");
    }
    assert!(rt; w.room() == 2);
    assert!(rt; need_of(w, Order::Variables, 0) == 3);
}

#[test]
fn two_variables_want_a_slot_more(rt: HostRuntime) -> Result<(), Fail> {
    let store = PlainStore::new(rt.alloc(), 2, 0, 9)?;
    let mut held = store.hold();
    lacks_one(&rt, &mut held);
    Ok(())
}
