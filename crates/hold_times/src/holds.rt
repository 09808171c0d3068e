//! One hold of a store after another, in each of which the same is done.

ghost use Rattle.std.specs.Prelude.{◌≡◌, ◌*◌, false};
ghost use Rattle.group_sift.specs.Turns.{last_end};
ghost use Rattle.hold_calls.specs.Rests.{IsAtRest};
ghost use Rattle.node_slots.specs.Stores.{is_held};

use crate::work::{Done, Tasks, work};
use edge_bits::Memory;
use group_sift::Blocks;
use held_table::HeldTable;
use hold_store::{HolderRoom, Holding, Holds};
use node_slots::PlainStore;
use std::alloc::Global;
use std::sync::Wait;
use step_store::Home;

/// Where the holder of the table belongs.
struct Here;

impl Home<bool> for Here {
    ghost use Rattle.std.specs.Prelude.{false};

    ghost number = { 0 };

    ghost rest = { false };
}

/// Does the tasks in one hold of a store.
fn held_once(store: PlainStore, blocks: &mut Blocks, end: u32, tasks: Tasks) -> (PlainStore, Done)
    requires idle { is_held store ≡ false }
    requires end { last_end 0 blocks.old ≡ end }
    ensures idle { is_held result.0 ≡ false }
    ensures end { last_end 0 blocks.new ≡ end }
{
    let mut held = store.hold();
    let done = work(&mut held, blocks, end, tasks);
    (held.release(), done)
}

/// Does the tasks in so many holds of a store, whose blocks end at a level.
pub fn over_store(
    store: PlainStore,
    blocks: &mut Blocks,
    end: u32,
    holds: u32,
    tasks: Tasks,
) -> Done
    requires idle { is_held store ≡ false }
    requires end { last_end 0 blocks.old ≡ end }
{
    let mut store = store;
    let mut done = Done::default();
    for _ in 0..holds {
        let (next, these) = held_once(store, blocks, end, tasks);
        store = next;
        done = done.and(these);
    }
    done
}

/// Does the tasks in one hold of a table.
fn stepped_once<R: Wait, S: Holds, E: Home<S::Rest>>(
    rt: &R,
    seat: S,
    room: HolderRoom,
    blocks: &mut Blocks,
    end: u32,
    tasks: Tasks,
) -> (S, HolderRoom, Done)
    requires own { S.holds seat }
    requires home { (S.table seat ≡ E.number) × (S.rest seat ≡ E.rest) }
    requires rest { IsAtRest (S.known seat) room }
    requires end { last_end 0 blocks.old ≡ end }
    ensures own { S.holds result.0 }
    ensures home { (S.table result.0 ≡ E.number) × (S.rest result.0 ≡ E.rest) }
    ensures rest { IsAtRest (S.known result.0) result.1 }
    ensures end { last_end 0 blocks.new ≡ end }
{
    let mut held: Holding<'_, R, S, E> = Holding::new(rt, seat, room);
    let done = work(&mut held, blocks, end, tasks);
    let (seat, room) = held.into_seat();
    (seat, room, done)
}

/// Does the tasks in so many holds of a table.
fn stepped<R: Wait, S: Holds, E: Home<S::Rest>>(
    rt: &R,
    seat: S,
    room: HolderRoom,
    blocks: &mut Blocks,
    end: u32,
    holds: u32,
    tasks: Tasks,
) -> (S, Done)
    requires own { S.holds seat }
    requires home { (S.table seat ≡ E.number) × (S.rest seat ≡ E.rest) }
    requires rest { IsAtRest (S.known seat) room }
    requires end { last_end 0 blocks.old ≡ end }
{
    let mut seat = seat;
    let mut room = room;
    let mut done = Done::default();
    for _ in 0..holds {
        let (next, left, these) = stepped_once::<R, S, E>(rt, seat, room, blocks, end, tasks);
        seat = next;
        room = left;
        done = done.and(these);
    }
    (seat, done)
}

/// Does the tasks by single steps at a table of words, in so many holds, if there is memory for the table.
pub fn by_steps<R: Wait>(
    rt: &R,
    alloc: Global,
    store: PlainStore,
    blocks: &mut Blocks,
    end: u32,
    holds: u32,
    tasks: Tasks,
) -> Result<Done, Memory>
    requires end { last_end 0 blocks.old ≡ end }
{
    let room = HolderRoom::new(alloc, store.limit())?;
    let table = HeldTable::of_store(alloc, store)?;
    let (_table, done) = stepped::<R, HeldTable, Here>(rt, table, room, blocks, end, holds, tasks);
    Ok(done)
}
