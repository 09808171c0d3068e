//! Swaps of neighbouring levels by single steps: what is in use, the order, and that functions stay.

use crate::diagrams::{counted_family, counted_function, has_pairs, has_unions};
use crate::holds::{Told, Way, swapped};
use crate::tables::{Here, opened};
use held_table::HeldTable;
use node_slots::PlainStore;
use node_store::Order;
use std::test::Fail;

#[test]
fn a_function_of_pairs_is_swapped_and_swapped_back(rt: HostRuntime) -> Result<(), Fail> {
    let mut store = PlainStore::new(rt.alloc(), 4, 0, 1_000)?;
    let edge = counted_function(&rt, &mut store);
    let (table, room) = opened(rt.alloc(), store)?;
    let there = Told {
        before: 13,
        need: 8,
        after: 12,
    };
    let (table, room, told, order) = swapped::<HostRuntime, HeldTable, Here>(
        &rt,
        table,
        room,
        Order::Variables,
        Way::There,
    );
    assert!(&rt; told == there && order == [0, 2, 1, 3]);
    has_pairs(&rt, table.words(), edge);
    let back = Told {
        before: 12,
        need: 6,
        after: 13,
    };
    let (table, _room, told, order) = swapped::<HostRuntime, HeldTable, Here>(
        &rt,
        table,
        room,
        Order::Variables,
        Way::Back,
    );
    assert!(&rt; told == back && order == [0, 1, 2, 3]);
    has_pairs(&rt, table.words(), edge);
    Ok(())
}

/// The same of the family of unions.
#[test]
fn a_family_of_unions_is_swapped_and_swapped_back(rt: HostRuntime) -> Result<(), Fail> {
    let mut store = PlainStore::new(rt.alloc(), 0, 4, 1_000)?;
    let edge = counted_family(&rt, &mut store);
    let (table, room) = opened(rt.alloc(), store)?;
    let there = Told {
        before: 11,
        need: 6,
        after: 9,
    };
    let (table, room, told, order) = swapped::<HostRuntime, HeldTable, Here>(
        &rt,
        table,
        room,
        Order::Elements,
        Way::There,
    );
    assert!(&rt; told == there && order == [0, 2, 1, 3]);
    has_unions(&rt, table.words(), edge);
    let back = Told {
        before: 9,
        need: 3,
        after: 11,
    };
    let (table, _room, told, order) = swapped::<HostRuntime, HeldTable, Here>(
        &rt,
        table,
        room,
        Order::Elements,
        Way::Back,
    );
    assert!(&rt; told == back && order == [0, 1, 2, 3]);
    has_unions(&rt, table.words(), edge);
    Ok(())
}
