//! A store of a few slots: conjunctions, leaves, and nodes of each kind.

ghost use Rattle.std.specs.Prelude.{◌≡◌, IfSome};
ghost use Rattle.edge_bits.specs.declared.edges.Kind.TheVariants.{Bdd};
ghost use Rattle.node_slots.specs.Held.{held_view};
ghost use Rattle.node_slots.specs.Stores.{plain_view};
ghost use Rattle.node_store.specs.Three.{AreThree};

use crate::walks::{find_by_walk, is_named, is_used};
use edge_bits::{Edge, FIRST_ELEMENT, FIRST_PROJECTION, Node, VALUE_END};
use ite_core::and;
use node_slots::{Grow, HeldStore, Opened, PlainStore, Stop, Whole};
use node_store::tell_permanent;
use std::process::Abort;
use std::test::Fail;

/// The node of a product: its else arc leads to logic zero.
fn node(var: u16, hi: u32) -> Node {
    Node {
        var,
        hi,
        lo: Edge::truth(false),
    }
}

/// The edges of three variables, as functions.
#[derive(Clone, Copy, Drop)]
struct Variables {
    a: Edge,
    b: Edge,
    c: Edge,
}

/// Those of the first three variables, if there are so many.
fn first_variables(store: &mut PlainStore) -> Option<Variables>
    ensures { IfSome result (λ p. AreThree Bdd (plain_view store.new) p.a p.b p.c) }
{
    if store.vars() < 3 {
        return None;
    }
    let a = store.projection(0);
    let b = store.projection(1);
    let c = store.projection(2);
    Some(Variables { a, b, c })
}

/// Slots in a store with two free slots: one for b and c, and one for all three.
fn fill_with_products(rt: &impl Abort, store: &mut PlainStore) -> Result<(), Fail> {
    let Some(Variables { a, b, c }) = first_variables(store) else {
        return Err(Fail::new("no three variables"));
    };
    assert!(rt; store.in_use() == 8);
    let Ok(bc) = and(store, b, c) else {
        return Err(Fail::new("refused with two free slots"));
    };
    assert!(rt; store.in_use() == 9);
    let Ok(abc) = and(store, a, bc) else {
        return Err(Fail::new("refused with one free slot"));
    };
    assert!(rt; store.in_use() == 10);
    assert!(rt; and(store, bc, a) == Ok(abc));
    found_by_walk(rt, store, bc.index(), abc.index());
    assert!(rt; and(store, a, b) == Err(Stop::Full));
    assert!(rt; store.in_use() == store.limit());
    Ok(())
}

/// The tables find what a walk over all words finds.
fn found_by_walk(rt: &impl Abort, store: &PlainStore, two: u32, three: u32) {
    assert!(rt; find_by_walk(store, node(1, 7)) == Some(two as usize));
    assert!(rt; find_by_walk(store, node(0, two)) == Some(three as usize));
    assert!(rt; find_by_walk(store, node(0, 6)) == None);
}

#[test]
fn conjunctions_to_the_last_slot(rt: HostRuntime) -> Result<(), Fail> {
    // Eight permanent slots, and two more.
    let mut store = PlainStore::new(rt.alloc(), 3, 0, 10)?;
    fill_with_products(&rt, &mut store)
}

/// A leaf, a node over it and the family of one combination, in a store with three free slots.
fn fill_with_each_kind(rt: &impl Abort, store: &mut PlainStore) -> Result<(), Fail>
    requires vars { (plain_view store.old).vars ≡ 1 }
    requires elements { (plain_view store.old).elements ≡ 1 }
{
    let empty = Edge::empty_family();
    let base = Edge::base_family();
    let zero = Edge::number_zero();
    tell_permanent(store);
    let Ok(leaf) = store.leaf(21) else {
        return Err(Fail::new("no leaf with three free slots"));
    };
    let Ok(node) = store.make(0, leaf, zero) else {
        return Err(Fail::new("no node with two free slots"));
    };
    let Ok(single) = store.make(FIRST_ELEMENT, base, empty) else {
        return Err(Fail::new("no family with one free slot"));
    };
    assert!(rt; store.in_use() == 9);
    assert!(rt; store.open(node) == Opened::Inner(0, leaf, zero));
    assert!(rt; store.open(single) == Opened::Inner(FIRST_ELEMENT, base, empty));
    assert!(rt; store.leaf(21) == Ok(leaf));
    assert!(rt; store.leaf(0) == Ok(zero));
    assert!(rt; store.leaf(42) == Err(Stop::Full));
    Ok(())
}

#[test]
fn leaves_and_nodes_of_each_kind(rt: HostRuntime) -> Result<(), Fail> {
    // Six permanent slots, and three more.
    let mut store = PlainStore::new(rt.alloc(), 1, 1, 9)?;
    fill_with_each_kind(&rt, &mut store)
}

/// Raises the count of a slot with a word.
fn raise(store: &mut PlainStore, slot: u32) {
    if is_used(store, slot) && store.count_of(slot) < u32::MAX - 1 {
        store.raise(slot);
    }
}

/// Lowers the count of a slot with a word.
fn lower(store: &mut PlainStore, slot: u32) {
    if is_used(store, slot) && store.count_of(slot) > 0 {
        store.lower(slot);
    }
}

/// Hands the store over to a holder who pins a slot with a word, and gives it back.
fn pin(store: PlainStore, slot: u32) -> PlainStore {
    if store.is_pinned(slot) {
        return store;
    }
    if is_used(&store, slot) {
        let mut held = store.hold();
        held.pin(slot);
        return held.release();
    }
    store
}

/// The same, where the pin is given up.
fn unpin(store: PlainStore, slot: u32) -> PlainStore {
    if !store.is_pinned(slot) {
        return store;
    }
    let mut held = store.hold();
    held.unpin(slot);
    held.release()
}

/// Frees a slot, if nothing holds it and no node names it.
fn free(store: &mut PlainStore, slot: u32) -> bool {
    let may = is_used(store, slot)
        && slot >= FIRST_PROJECTION + store.vars()
        && store.count_of(slot) == 0
        && !store.is_pinned(slot)
        && !is_named(store, slot);
    if may {
        store.free(slot);
    }
    may
}

/// The slots of the product of two variables, and of that of all three.
#[derive(Clone, Copy, PartialEq, Eq, Drop)]
struct Slots {
    two: u32,
    three: u32,
}

/// The products of the second and the third variable, and of all three, if there are slots for them.
fn products(store: &mut PlainStore) -> Option<Slots> {
    let Variables { a, b, c } = first_variables(store)?;
    let Ok(two) = and(store, b, c) else {
        return None;
    };
    let Ok(three) = and(store, a, two) else {
        return None;
    };
    Some(Slots {
        two: two.index(),
        three: three.index(),
    })
}

/// Those products, in a store with slots for them.
fn filled(rt: &impl Abort, store: &mut PlainStore) -> Slots {
    match products(store) {
        Some(slots) => slots,
        None => panic!(rt; "refused with two free slots"),
    }
}

/// A permanent slot, one that a node names and one that is held are not freed.
fn keep_held(rt: &impl Abort, store: &mut PlainStore, slots: Slots) {
    let Slots { two, three } = slots;
    assert!(rt; !free(store, 4));
    assert!(rt; !free(store, two));
    raise(store, three);
    assert!(rt; store.count_of(three) == 1);
    assert!(rt; !free(store, three));
    lower(store, three);
}

/// Frees both products, first the one that names the other.
fn free_both(rt: &impl Abort, store: &mut PlainStore, slots: Slots) {
    let Slots { two, three } = slots;
    assert!(rt; free(store, three));
    assert!(rt; free(store, two));
    assert!(rt; store.in_use() == 8);
    assert!(rt; find_by_walk(store, node(1, 7)) == None);
}

/// Takes the two free slots again, first the one that was freed last.
fn take_again(rt: &impl Abort, store: &mut PlainStore, slots: Slots) {
    let Slots { two, three } = slots;
    assert!(rt; leaf_slot(rt, store) == two);
    assert!(rt; products(store).is_none());
    assert!(rt; find_by_walk(store, node(1, 7)) == Some(three as usize));
    assert!(rt; store.in_use() == 10);
}

/// Frees the slot of the leaf.
fn free_leaf(rt: &impl Abort, store: &mut PlainStore, slot: u32) {
    assert!(rt; free(store, slot));
    assert!(rt; store.in_use() == 9);
}

/// The slot of a leaf.
fn leaf_slot(rt: &impl Abort, store: &mut PlainStore) -> u32 {
    match store.leaf(21) {
        Ok(leaf) => leaf.index(),
        Err(_) => panic!(rt; "no leaf with two free slots"),
    }
}

/// Fills a store with two free slots, frees both and takes them again.
fn fill_and_free(rt: &impl Abort, store: &mut PlainStore) {
    let slots = filled(rt, store);
    assert!(rt; store.leaf(21) == Err(Stop::Full));
    keep_held(rt, store, slots);
    free_both(rt, store, slots);
    take_again(rt, store, slots);
    free_leaf(rt, store, slots.two);
}

#[test]
fn freed_slots_are_taken_again(rt: HostRuntime) -> Result<(), Fail> {
    let mut store = PlainStore::new(rt.alloc(), 3, 0, 10)?;
    fill_and_free(&rt, &mut store);
    Ok(())
}

/// Sees that the product of all three is pinned, and not freed.
fn refuse_to_free(rt: &impl Abort, store: &mut PlainStore, slots: Slots) {
    let Slots { two, three } = slots;
    assert!(rt; store.is_pinned(three) && !store.is_pinned(two));
    assert!(rt; store.count_of(three) == 0);
    assert!(rt; !free(store, three));
}

/// Sees that the slot is no longer pinned, and frees it.
fn free_unpinned(rt: &impl Abort, store: &mut PlainStore, slot: u32) {
    assert!(rt; !store.is_pinned(slot));
    assert!(rt; free(store, slot));
    assert!(rt; store.in_use() == 9);
}

#[test]
fn a_pinned_slot_is_not_freed(rt: HostRuntime) -> Result<(), Fail> {
    let mut store = PlainStore::new(rt.alloc(), 3, 0, 10)?;
    let slots = filled(&rt, &mut store);
    let mut store = pin(store, slots.three);
    refuse_to_free(&rt, &mut store, slots);
    let mut store = unpin(store, slots.three);
    free_unpinned(&rt, &mut store, slots.three);
    Ok(())
}

/// Whether a node names a slot, as the store's holder is told.
fn is_told_named(held: &mut HeldStore, slot: u32) -> bool
    ensures { (held_view held.new).half ≡ (held_view held.old).half }
{
    slot < held.limit() && held.is_named(slot)
}

/// Hands the store over to a holder, who is told that a node names the product of two variables, and gives it back.
fn see_named(rt: &impl Abort, store: PlainStore, slots: Slots) -> PlainStore {
    let mut held = store.hold();
    assert!(rt; is_told_named(&mut held, slots.two));
    assert!(rt; is_told_named(&mut held, FIRST_PROJECTION + 2));
    assert!(rt; !is_told_named(&mut held, slots.three));
    held.release()
}

/// The same, where no node names it any more.
fn see_unnamed(rt: &impl Abort, store: PlainStore, slots: Slots) -> PlainStore {
    let mut held = store.hold();
    assert!(rt; !is_told_named(&mut held, slots.two));
    assert!(rt; is_told_named(&mut held, FIRST_PROJECTION + 2));
    assert!(rt; !is_told_named(&mut held, slots.three));
    held.release()
}

#[test]
fn a_holder_is_told_what_nodes_name(rt: HostRuntime) -> Result<(), Fail> {
    let mut store = PlainStore::new(rt.alloc(), 3, 0, 10)?;
    let slots = filled(&rt, &mut store);
    let mut store = see_named(&rt, store, slots);
    assert!(rt; free(&mut store, slots.three));
    let mut store = see_unnamed(&rt, store, slots);
    let again = filled(&rt, &mut store);
    assert!(rt; again == slots);
    let _ = see_named(&rt, store, again);
    Ok(())
}

/// The slot of the node of variable 0 over this many times 2^20, and 0.
fn node_over(store: &mut PlainStore, value: u32) -> Option<u32> {
    let number = i64::from(value) * 1_048_576;
    tell_permanent(store);
    if store.vars() == 0 || number >= VALUE_END {
        return None;
    }
    let zero = Edge::number_zero();
    let Ok(leaf) = store.leaf(number) else {
        return None;
    };
    let Ok(node) = store.make(0, leaf, zero) else {
        return None;
    };
    Some(node.index())
}

/// Asks for as many nodes at one level as there are leaves below them.
fn ask_for_all(rt: &impl Abort, store: &mut PlainStore) {
    for value in 2..20_002 {
        assert!(rt; node_over(store, value).is_some());
    }
}

/// Makes the nodes, and looks at each a second time.
fn ask_twice(rt: &impl Abort, store: &mut PlainStore) {
    ask_for_all(rt, store);
    assert!(rt; store.in_use() == 40_006);
    assert!(rt; node_over(store, 20_001) == Some(40_005));
    ask_for_all(rt, store);
    assert!(rt; store.in_use() == 40_006);
}

#[test]
fn many_nodes_at_one_level(rt: HostRuntime) -> Result<(), Fail> {
    let mut store = PlainStore::new(rt.alloc(), 1, 0, 100_000)?;
    ask_twice(&rt, &mut store);
    Ok(())
}
