ghost use Rattle.shared_store.specs.Sharing.{IsNew};

use edge_bits::{Edge, Kind};
use node_store::Grow;
use seat_guard::opening::open;
use seat_guard::view::Opening;
use shared_store::{Cell, Shared};
use std::alloc::{AllocError, Global};
use std::process::Abort;
use std::sync::Wait;
use std::test::Fail;

/// Opens a table over a store and an empty board, makes no call, and closes it.
fn open_and_close<R: Abort + Wait>(
    rt: &R,
    alloc: Global,
    shared: Shared,
) -> Result<Shared, AllocError>
    requires { IsNew 3 2 100 shared }
{
    let key = Opening {
        vars: 3,
        elements: 2,
        slots: 100,
        sessions: 64,
    };
    let (guard, mut closing) = open(alloc, shared, &key)?;
    assert!(rt; guard.calls(&mut closing) == 0);
    Ok(guard.take_last(rt, &mut closing))
}

/// The first and the last cell are empty.
fn is_empty(rt: &impl Abort, shared: &Shared) {
    assert!(rt; shared.cell(0) == None && shared.cell(255) == None);
}

/// Only what is permanent has a slot.
fn is_fresh(rt: &impl Abort, shared: &Shared) {
    assert!(rt; shared.store.in_use() == 8);
}

/// A table of seats opens over a new store and an empty board.
#[test]
fn a_table_opens_over_a_store(rt: HostRuntime) -> Result<(), Fail> {
    let shared = Shared::new(rt.alloc(), 3, 2, 100)?;
    is_empty(&rt, &shared);
    let shared = open_and_close(&rt, rt.alloc(), shared)?;
    is_fresh(&rt, &shared);
    Ok(())
}

/// Puts logic one into a cell.
fn fill_cell(rt: &impl Abort, shared: &mut Shared) -> Cell
    requires { IsNew 1 0 6 shared.old }
{
    let kind = Kind::Bdd;
    let edge = Edge::new(0, false);
    let before = shared.cell(7);
    assert!(rt; before.is_none());
    shared.set_cell(7, Cell { kind, edge });
    Cell { kind, edge }
}

/// The cell stands at its place alone.
fn is_alone(rt: &impl Abort, shared: &Shared, cell: Cell) {
    assert!(rt; shared.cell(7) == Some(cell) && shared.cell(8) == None);
}

/// A cell stands through a sweep too, where nothing is counted.
#[test]
fn a_cell_stands(rt: HostRuntime) -> Result<(), Fail> {
    let mut shared = Shared::new(rt.alloc(), 1, 0, 6)?;
    let cell = fill_cell(&rt, &mut shared);
    is_alone(&rt, &shared, cell);
    shared.let_all_go();
    let (shared, swept) = shared.sweep();
    assert!(rt; swept.freed == 0 && swept.in_use == 6);
    is_alone(&rt, &shared, cell);
    Ok(())
}
