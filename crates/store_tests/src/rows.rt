//! The rows of a session, through many adds and removes.

ghost use Rattle.std.specs.Prelude.{◌≡◌, ◌+◌, ◌<◌, ◌≤◌, ◌^◌};

use edge_bits::{Edge, Kind};
use handle_count::{H, Rows};
use std::process::Abort;
use std::test::Fail;

/// Adds a row where few are live.
fn add(rt: &impl Abort, rows: &mut Rows, edge: Edge) -> H
    requires room { 1 ≤ rows.old.spare }
    requires adds { rows.old.adds < 2 ^ 63 }
    ensures spare { rows.new.spare + 1 ≡ rows.old.spare }
    ensures adds { rows.new.adds ≡ rows.old.adds + 1 }
{
    assert!(rt; rows.live() < 4);
    rows.add(Kind::Bdd, edge)
}

/// Takes a row away that is seen to be live, and then not to be.
fn remove(rt: &impl Abort, rows: &mut Rows, h: H, edge: Edge)
    ensures spare { rows.new.spare ≡ rows.old.spare + 1 }
    ensures adds { rows.new.adds ≡ rows.old.adds }
{
    assert!(rt; rows.is_live(h));
    let (kind, found) = rows.remove(h);
    assert!(rt; kind == Kind::Bdd && found == edge);
    assert!(rt; !rows.is_live(h));
}

/// Adds and removes a million rows, where there is room for one.
fn add_and_remove(rt: &impl Abort, rows: &mut Rows)
    requires room { rows.old.spare ≡ 1 }
    requires adds { rows.old.adds ≡ 3 }
{
    for i in 0..1_000_000u32 {
        let edge = Edge::new(i % 8_000_000, i % 2 == 1);
        let h = add(rt, rows, edge);
        assert!(rt; rows.spare() == 0);
        remove(rt, rows, h, edge);
    }
    assert!(rt; rows.live() == 3);
}

/// The first row is as it was.
fn is_first(rt: &impl Abort, rows: &Rows, first: H) {
    assert!(rt; rows.is_live(first));
    assert!(rt; rows.edge(first) == Edge::new(7, true));
}

/// Room for four rows is room for a million adds, of which four at most are live at once.
#[test]
fn a_million_adds(rt: HostRuntime) -> Result<(), Fail> {
    let mut rows = Rows::new(rt.alloc());
    rows.reserve(4)?;
    let first = add(&rt, &mut rows, Edge::new(7, true));
    add(&rt, &mut rows, Edge::new(7, false));
    add(&rt, &mut rows, Edge::new(8, false));
    add_and_remove(&rt, &mut rows);
    is_first(&rt, &rows, first);
    Ok(())
}
