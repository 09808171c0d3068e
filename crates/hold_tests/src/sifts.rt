//! Sifts by single steps: the order that is left, the sizes, and that functions stay.

ghost use Rattle.std.specs.Prelude.{◌≡◌, ◌≤◌};
ghost use Rattle.group_sift.specs.Turns.{last_end};
ghost use Rattle.node_slots.specs.Stores.{plain_view};

use crate::diagrams::{counted_family, counted_function, has_pairs, has_unions};
use crate::holds::sifted;
use crate::tables::{Here, opened};
use group_sift::{Blocks, Mode, Sifted};
use held_table::HeldTable;
use node_slots::PlainStore;
use node_store::Order;
use std::alloc::Global;
use std::process::Abort;
use std::sync::Wait;
use std::test::Fail;

/// Sifts the variables of a table with the function of pairs, which stays, and answers what the sift tells and which order it leaves.
fn sift_function<R: Wait + Abort>(
    rt: &R,
    alloc: Global,
    limit: u32,
    blocks: &mut Blocks,
) -> Result<(Sifted, [u32; 4]), Fail>
    requires limit { (9 ≤ limit) × (limit ≤ 1000) }
    requires end { last_end 0 blocks.old ≡ 4 }
{
    let mut store = PlainStore::new(alloc, 4, 0, limit)?;
    let edge = counted_function(rt, &mut store);
    let (table, room) = opened(alloc, store)?;
    let (table, _room, told, order) = sifted::<R, HeldTable, Here>(
        rt,
        table,
        room,
        Order::Variables,
        blocks,
    );
    has_pairs(rt, table.words(), edge);
    Ok((told, order))
}

/// What a sift tells that brings the pairs together.
fn brought_together() -> Sifted {
    Sifted {
        before: 13,
        after: 12,
        swaps: 23,
    }
}

/// What a sift tells that leaves the order.
fn left_apart() -> Sifted {
    Sifted {
        before: 13,
        after: 13,
        swaps: 8,
    }
}

#[test]
fn pairs_are_brought_together(rt: HostRuntime) -> Result<(), Fail> {
    let mut blocks = Blocks::one(rt.alloc(), 4)?;
    let (told, order) = sift_function(&rt, rt.alloc(), 1_000, &mut blocks)?;
    assert!(&rt; told == brought_together() && order == [0, 2, 1, 3]);
    Ok(())
}

#[test]
fn a_sift_lacks_a_slot(rt: HostRuntime) -> Result<(), Fail> {
    let mut blocks = Blocks::one(rt.alloc(), 4)?;
    let (told, order) = sift_function(&rt, rt.alloc(), 20, &mut blocks)?;
    assert!(&rt; told == left_apart() && order == [0, 1, 2, 3]);
    Ok(())
}

#[test]
fn a_sift_has_the_slots_that_it_asks_for(rt: HostRuntime) -> Result<(), Fail> {
    let mut blocks = Blocks::one(rt.alloc(), 4)?;
    let (told, order) = sift_function(&rt, rt.alloc(), 21, &mut blocks)?;
    assert!(&rt; told == brought_together() && order == [0, 2, 1, 3]);
    Ok(())
}

#[test]
fn pairs_in_two_blocks_stay_apart(rt: HostRuntime) -> Result<(), Fail> {
    let two = Blocks::new(rt.alloc(), &[2, 4], &[Mode::Default, Mode::Default])?;
    let Some(mut blocks) = two else {
        return Err(Fail::new("blocks that end at 2 and at 4 are refused"));
    };
    let (told, order) = sift_function(&rt, rt.alloc(), 1_000, &mut blocks)?;
    assert!(&rt; told == left_apart() && order == [0, 1, 2, 3]);
    Ok(())
}

#[test]
fn unions_are_brought_together(rt: HostRuntime) -> Result<(), Fail> {
    let mut store = PlainStore::new(rt.alloc(), 0, 4, 1_000)?;
    let edge = counted_family(&rt, &mut store);
    let (table, room) = opened(rt.alloc(), store)?;
    let mut blocks = Blocks::one(rt.alloc(), 4)?;
    let (table, _room, told, order) = sifted::<HostRuntime, HeldTable, Here>(
        &rt,
        table,
        room,
        Order::Elements,
        &mut blocks,
    );
    let due = Sifted {
        before: 11,
        after: 9,
        swaps: 17,
    };
    assert!(&rt; told == due && order == [0, 2, 1, 3]);
    has_unions(&rt, table.words(), edge);
    Ok(())
}
