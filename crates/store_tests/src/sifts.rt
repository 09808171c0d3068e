//! Sifts over a store in its holder's hands: the order that is left, the sizes, and that functions stay.

ghost use Rattle.std.specs.Prelude.{◌≡◌, false};
ghost use Rattle.node_slots.specs.Stores.{is_held, plain_view};
ghost use Rattle.group_sift.specs.Sifts.{IsIdle};
ghost use Rattle.group_sift.specs.Turns.{last_end};

use crate::pairs::{counted_family, counted_function, has_pairs, has_unions};
use crate::swaps::stand_as;
use group_sift::{Blocks, Mode, Sifted, sift, sift_e};
use node_slots::PlainStore;
use node_store::{Order, Whole};
use std::process::Abort;
use std::test::Fail;

/// Sifts an order of four.
fn sift_four<W: Whole>(rt: &impl Abort, w: &mut W, order: Order, blocks: &mut Blocks) -> Sifted
    requires idle { IsIdle (W.view w.old) }
    requires end { last_end 0 blocks.old ≡ 4 }
    ensures { IsIdle (W.view w.new) }
{
    if w.levels_of(order) != 4 {
        panic!(rt; "not four levels");
    }
    match order {
        Order::Variables => sift(w, blocks),
        Order::Elements => sift_e(w, blocks),
    }
}

/// Sifts the variables of a store with the function of pairs, which stays, and sees what the sift tells and which order it leaves.
fn sift_function(
    rt: &impl Abort,
    store: PlainStore,
    blocks: &mut Blocks,
    told: Sifted,
    wanted: [u32; 4],
)
    requires idle { is_held store ≡ false }
    requires end { last_end 0 blocks.old ≡ 4 }
{
    let mut store = store;
    let edge = counted_function(rt, &mut store);
    let mut held = store.hold();
    assert!(rt; sift_four(rt, &mut held, Order::Variables, blocks) == told);
    stand_as(rt, &mut held, Order::Variables, wanted);
    let store = held.release();
    has_pairs(rt, &store, edge);
}

/// The same of the elements and the family of unions.
fn sift_family(
    rt: &impl Abort,
    store: PlainStore,
    blocks: &mut Blocks,
    told: Sifted,
    wanted: [u32; 4],
)
    requires idle { is_held store ≡ false }
    requires elements { (plain_view store).elements ≡ 4 }
    requires end { last_end 0 blocks.old ≡ 4 }
{
    let mut store = store;
    let edge = counted_family(rt, &mut store);
    let mut held = store.hold();
    assert!(rt; sift_four(rt, &mut held, Order::Elements, blocks) == told);
    stand_as(rt, &mut held, Order::Elements, wanted);
    let store = held.release();
    has_unions(rt, &store, edge);
}

/// What a sift tells that brings the pairs together.
fn brought_together() -> Sifted {
    Sifted {
        before: 13,
        after: 12,
        swaps: 23,
    }
}

/// What a sift tells that leaves the order.
fn left_apart() -> Sifted {
    Sifted {
        before: 13,
        after: 13,
        swaps: 8,
    }
}

#[test]
fn pairs_are_brought_together(rt: HostRuntime) -> Result<(), Fail> {
    let store = PlainStore::new(rt.alloc(), 4, 0, 1_000)?;
    let mut blocks = Blocks::one(rt.alloc(), 4)?;
    sift_function(&rt, store, &mut blocks, brought_together(), [0, 2, 1, 3]);
    Ok(())
}

#[test]
fn a_sift_lacks_a_slot(rt: HostRuntime) -> Result<(), Fail> {
    let store = PlainStore::new(rt.alloc(), 4, 0, 20)?;
    let mut blocks = Blocks::one(rt.alloc(), 4)?;
    sift_function(&rt, store, &mut blocks, left_apart(), [0, 1, 2, 3]);
    Ok(())
}

#[test]
fn a_sift_has_the_slots_that_it_asks_for(rt: HostRuntime) -> Result<(), Fail> {
    let store = PlainStore::new(rt.alloc(), 4, 0, 21)?;
    let mut blocks = Blocks::one(rt.alloc(), 4)?;
    sift_function(&rt, store, &mut blocks, brought_together(), [0, 2, 1, 3]);
    Ok(())
}

#[test]
fn pairs_in_two_blocks_stay_apart(rt: HostRuntime) -> Result<(), Fail> {
    let store = PlainStore::new(rt.alloc(), 4, 0, 1_000)?;
    let two = Blocks::new(rt.alloc(), &[2, 4], &[Mode::Default, Mode::Default])?;
    let Some(mut blocks) = two else {
        return Err(Fail::new("blocks that end at 2 and at 4 are refused"));
    };
    sift_function(&rt, store, &mut blocks, left_apart(), [0, 1, 2, 3]);
    Ok(())
}

#[test]
fn blocks_end_one_after_another(rt: HostRuntime) -> Result<(), Fail> {
    let modes = [Mode::Default, Mode::Fixed];
    assert!(&rt; Blocks::new(rt.alloc(), &[2, 4], &modes)?.is_some());
    assert!(&rt; Blocks::new(rt.alloc(), &[4, 2], &modes)?.is_none());
    assert!(&rt; Blocks::new(rt.alloc(), &[2, 2], &modes)?.is_none());
    assert!(&rt; Blocks::new(rt.alloc(), &[0, 2], &modes)?.is_none());
    assert!(&rt; Blocks::new(rt.alloc(), &[4], &modes)?.is_none());
    assert!(&rt; Blocks::new(rt.alloc(), &[], &[])?.is_some());
    Ok(())
}

#[test]
fn unions_are_brought_together(rt: HostRuntime) -> Result<(), Fail> {
    let store = PlainStore::new(rt.alloc(), 0, 4, 1_000)?;
    let mut blocks = Blocks::one(rt.alloc(), 4)?;
    let told = Sifted {
        before: 11,
        after: 9,
        swaps: 17,
    };
    sift_family(&rt, store, &mut blocks, told, [0, 2, 1, 3]);
    Ok(())
}

#[test]
fn a_fixed_block_is_not_sifted(rt: HostRuntime) -> Result<(), Fail> {
    let store = PlainStore::new(rt.alloc(), 0, 4, 1_000)?;
    let fixed = Blocks::new(rt.alloc(), &[4], &[Mode::Fixed])?;
    let Some(mut blocks) = fixed else {
        return Err(Fail::new("a block that ends at 4 is refused"));
    };
    let told = Sifted {
        before: 11,
        after: 11,
        swaps: 0,
    };
    sift_family(&rt, store, &mut blocks, told, [0, 1, 2, 3]);
    Ok(())
}
