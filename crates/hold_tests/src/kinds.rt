//! A table with functions of all three kinds, as it is swapped and sifted in both orders.

ghost use Rattle.std.specs.Prelude.{◌≡◌};
ghost use Rattle.node_slots.specs.Stores.{plain_view};

use crate::diagrams::{
    counted_family, counted_function, counted_numbers, has_numbers, has_pairs, has_unions,
};
use crate::holds::{Told, Way, sifted, swapped};
use crate::tables::{Here, opened};
use edge_bits::Edge;
use group_sift::{Blocks, Sifted};
use held_table::HeldTable;
use node_slots::PlainStore;
use node_store::Order;
use std::process::Abort;
use std::test::Fail;

/// The edges of a function of each kind.
#[derive(Clone, Copy, Drop)]
struct Three {
    pairs: Edge,
    numbers: Edge,
    unions: Edge,
}

/// A function of each kind, counted.
fn counted_three(rt: &impl Abort, store: &mut PlainStore) -> Three
    requires elements { (plain_view store.old).elements ≡ 4 }
{
    let pairs = counted_function(rt, store);
    let numbers = counted_numbers(rt, store);
    let unions = counted_family(rt, store);
    Three {
        pairs,
        numbers,
        unions,
    }
}

/// Sees that all three have their values.
fn have_values(rt: &impl Abort, words: &[u64], three: Three) {
    has_pairs(rt, words, three.pairs);
    has_numbers(rt, words, three.numbers);
    has_unions(rt, words, three.unions);
}

/// What a swap of the variables is told, and then one of the elements.
const THERE: [Told; 2] = [
    Told {
        before: 28,
        need: 14,
        after: 26,
    },
    Told {
        before: 26,
        need: 6,
        after: 24,
    },
];

/// What the swaps back are told, that of the elements first.
const BACK: [Told; 2] = [
    Told {
        before: 24,
        need: 3,
        after: 26,
    },
    Told {
        before: 26,
        need: 10,
        after: 28,
    },
];

/// The middle levels of both orders are swapped.
#[test]
fn all_kinds_are_swapped(rt: HostRuntime) -> Result<(), Fail> {
    let mut store = PlainStore::new(rt.alloc(), 4, 4, 1_000)?;
    let three = counted_three(&rt, &mut store);
    let (table, room) = opened(rt.alloc(), store)?;
    let (table, room, told, order) = swapped::<HostRuntime, HeldTable, Here>(
        &rt,
        table,
        room,
        Order::Variables,
        Way::There,
    );
    assert!(&rt; told == THERE[0] && order == [0, 2, 1, 3]);
    let (table, room, told, order) = swapped::<HostRuntime, HeldTable, Here>(
        &rt,
        table,
        room,
        Order::Elements,
        Way::There,
    );
    assert!(&rt; told == THERE[1] && order == [0, 2, 1, 3]);
    have_values(&rt, table.words(), three);
    let (table, room, told, order) = swapped::<HostRuntime, HeldTable, Here>(
        &rt,
        table,
        room,
        Order::Elements,
        Way::Back,
    );
    assert!(&rt; told == BACK[0] && order == [0, 1, 2, 3]);
    let (table, _room, told, order) = swapped::<HostRuntime, HeldTable, Here>(
        &rt,
        table,
        room,
        Order::Variables,
        Way::Back,
    );
    assert!(&rt; told == BACK[1] && order == [0, 1, 2, 3]);
    have_values(&rt, table.words(), three);
    Ok(())
}

/// Both orders are sifted, one after the other.
#[test]
fn all_kinds_are_sifted(rt: HostRuntime) -> Result<(), Fail> {
    let mut store = PlainStore::new(rt.alloc(), 4, 4, 1_000)?;
    let three = counted_three(&rt, &mut store);
    let (table, room) = opened(rt.alloc(), store)?;
    let mut blocks = Blocks::one(rt.alloc(), 4)?;
    let variables = Sifted {
        before: 28,
        after: 26,
        swaps: 23,
    };
    let (table, room, told, order) = sifted::<HostRuntime, HeldTable, Here>(
        &rt,
        table,
        room,
        Order::Variables,
        &mut blocks,
    );
    assert!(&rt; told == variables && order == [0, 2, 1, 3]);
    let elements = Sifted {
        before: 26,
        after: 24,
        swaps: 23,
    };
    let (table, _room, told, order) = sifted::<HostRuntime, HeldTable, Here>(
        &rt,
        table,
        room,
        Order::Elements,
        &mut blocks,
    );
    assert!(&rt; told == elements && order == [0, 2, 1, 3]);
    have_values(&rt, table.words(), three);
    Ok(())
}
