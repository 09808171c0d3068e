//! What a holder frees and keeps while another gives up what holds a function, at each of the holder's loads of its count.

use crate::diagrams::{counted_function, has_pairs};
use crate::holds::sifted;
use crate::lowering::Lowering;
use crate::tables::{Here, opened};
use edge_bits::Edge;
use group_sift::{Blocks, Sifted};
use hold_calls::swept;
use node_slots::PlainStore;
use node_store::Order;
use std::alloc::Global;
use std::process::Abort;
use std::sync::Wait;
use std::test::Fail;

/// Sees that the function is whole where so many slots are in use as it has beside the nine permanent ones, and gone where it is not.
fn is_whole_or_gone(rt: &impl Abort, words: &[u64], edge: Edge, in_use: u32, whole: u32) {
    if in_use == whole {
        has_pairs(rt, words, edge);
    } else {
        assert!(rt; in_use == 9);
    }
}

/// Sweeps a table while the function of pairs, which is counted once, is given up at a load of its count, and sweeps again. Answers how often the first sweep loaded it.
fn sweep_beside<R: Wait + Abort>(rt: &R, alloc: Global, at: u32) -> Result<u32, Fail> {
    let mut store = PlainStore::new(alloc, 4, 0, 30)?;
    let edge = counted_function(rt, &mut store);
    let (table, room) = opened(alloc, store)?;
    let seat = Lowering::new(table, edge.index(), at);
    let (seat, room, first) = swept::<R, Lowering, Here>(rt, seat, room);
    is_whole_or_gone(rt, seat.words(), edge, first.in_use, 13);
    let loads = seat.loads();
    let (_seat, _room, second) = swept::<R, Lowering, Here>(rt, seat, room);
    assert!(rt; second.in_use <= first.in_use);
    assert!(rt; at >= loads || second.in_use == 9);
    Ok(loads)
}

#[test]
fn a_function_is_given_up_beside_a_sweep(rt: HostRuntime) -> Result<(), Fail> {
    let loads = sweep_beside(&rt, rt.alloc(), u32::MAX)?;
    for at in 0..loads {
        sweep_beside(&rt, rt.alloc(), at)?;
    }
    Ok(())
}

/// Sees what a sift tells and leaves: where the function was counted as it began, and where it was given up before.
fn is_told(rt: &impl Abort, told: Sifted, order: [u32; 4]) {
    if told.before == 13 {
        assert!(rt; told.after == 12 && told.swaps == 23 && order == [0, 2, 1, 3]);
    } else {
        assert!(rt; told.before == 9 && told.after == 9);
        assert!(rt; told.swaps == 24 && order == [0, 1, 2, 3]);
    }
}

/// Sifts a table while the function is given up at a load of its count. Answers how often it was loaded.
fn sift_beside<R: Wait + Abort>(rt: &R, alloc: Global, at: u32) -> Result<u32, Fail> {
    let mut store = PlainStore::new(alloc, 4, 0, 30)?;
    let edge = counted_function(rt, &mut store);
    let (table, room) = opened(alloc, store)?;
    let mut blocks = Blocks::one(alloc, 4)?;
    let seat = Lowering::new(table, edge.index(), at);
    let (seat, _room, told, order) = sifted::<R, Lowering, Here>(
        rt,
        seat,
        room,
        Order::Variables,
        &mut blocks,
    );
    is_told(rt, told, order);
    is_whole_or_gone(rt, seat.words(), edge, told.after, 12);
    Ok(seat.loads())
}

#[test]
fn a_function_is_given_up_beside_a_sift(rt: HostRuntime) -> Result<(), Fail> {
    let loads = sift_beside(&rt, rt.alloc(), u32::MAX)?;
    for at in 0..loads {
        sift_beside(&rt, rt.alloc(), at)?;
    }
    Ok(())
}
