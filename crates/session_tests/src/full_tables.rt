//! A full table is mended by a sweep where rows were dropped, and is told where none were.

ghost use Rattle.std.specs.Prelude.{◌≡◌, IfOk};
ghost use Rattle.dd_session.specs.Managing.{AreAll};

use crate::calls::{and, drop_row, same, sweep, var};
use dd_session::{Config, H, Manager, OpenFault, Session};
use std::alloc::{AllocError, Global};
use std::process::Abort;
use std::sync::Wait;
use std::test::Fail;

/// A manager of three variables and two further slots, and its one session.
fn open_small(alloc: Global) -> Result<(Manager, Session), OpenFault>
    ensures { IfOk result (λ r. (r.1.manager ≡ r.0) × (r.1.number ≡ 0) × (r.0.vars ≡ 3) × (r.0.sessions ≡ 1)) }
{
    let config = Config {
        vars: 3,
        elements: 0,
        limit: 10,
    };
    let (manager, mut sessions) = Manager::open(alloc, config, 1)?;
    match sessions.pop() {
        Some(session) => Ok((manager, session)),
        None => unreachable!(),
    }
}

/// All sessions of a manager of one.
fn alone(alloc: Global, manager: &Manager, session: Session) -> Result<Vec<Session>, AllocError>
    requires own { (session.manager ≡ manager.now) × (session.number ≡ 0) × (manager.now.sessions ≡ 1) }
    ensures { IfOk result (λ all. AreAll manager.now all.items) }
{
    let mut all = Vec::new(alloc);
    all.push(session)?;
    Ok(all)
}

/// Rows of a full table: three variables, and the two conjunctions that there are slots for.
#[derive(Clone, Copy, Drop)]
struct Rows {
    a: H,
    b: H,
    c: H,
    first: H,
    second: H,
}

/// Fills the table with two conjunctions.
fn fill<R: Abort + Wait>(rt: &R, manager: &Manager, session: &mut Session) -> Rows
    requires own { session.old.manager ≡ manager.now }
    requires variables { manager.now.vars ≡ 3 }
    ensures { (session.new.manager ≡ session.old.manager) × (session.new.number ≡ session.old.number) }
{
    let a = var(rt, manager, session, 0);
    let b = var(rt, manager, session, 1);
    let c = var(rt, manager, session, 2);
    let first = and(rt, manager, session, a, b);
    let second = and(rt, manager, session, b, c);
    let (Some(first), Some(second)) = (first, second) else {
        panic!(rt; "full too early");
    };
    assert!(rt; session.live() == 5);
    Rows {
        a,
        b,
        c,
        first,
        second,
    }
}

/// A third conjunction is told Full while both rows are live, and is made where one was dropped.
fn mend<R: Abort + Wait>(rt: &R, manager: &Manager, session: &mut Session, rows: Rows) -> H
    requires own { session.old.manager ≡ manager.now }
    ensures { (session.new.manager ≡ session.old.manager) × (session.new.number ≡ session.old.number) }
{
    let third = and(rt, manager, session, rows.a, rows.c);
    assert!(rt; third.is_none() && session.fulls() == 1 && session.live() == 5);
    drop_row(rt, manager, session, rows.second);
    let Some(third) = and(rt, manager, session, rows.a, rows.c) else {
        panic!(rt; "not mended");
    };
    assert!(rt; session.fulls() == 1);
    assert!(rt; sweep(rt, manager, session) == 10);
    third
}

/// The first conjunction is found again, and is not the third.
fn compare<R: Abort + Wait>(rt: &R, manager: &Manager, session: &mut Session, rows: Rows, third: H)
    requires own { session.old.manager ≡ manager.now }
    ensures { (session.new.manager ≡ session.old.manager) × (session.new.number ≡ session.old.number) }
{
    let Some(again) = and(rt, manager, session, rows.a, rows.b) else {
        panic!(rt; "full where nothing was stored");
    };
    assert!(rt; same(rt, manager, session, rows.first, again));
    assert!(rt; !same(rt, manager, session, rows.first, third));
}

/// Closes the manager: all calls are counted, and no node is left.
fn close<R: Abort + Wait>(rt: &R, alloc: Global, manager: Manager, session: Session)
    requires own { (session.manager ≡ manager) × (session.number ≡ 0) × (manager.sessions ≡ 1) }
{
    let calls = session.calls();
    let Ok(all) = alone(alloc, &manager, session) else {
        panic!(rt; "no memory");
    };
    let closed = manager.close(rt, all);
    assert!(rt; closed.calls == calls && closed.left == 8);
}

/// Where the table is full the operation sweeps and tries again: dropped rows leave room. Where all rows are live it is told Full, once, and nothing changes.
#[test]
fn a_sweep_mends_a_full_table(rt: HostRuntime) -> Result<(), Fail> {
    let Ok((manager, mut session)) = open_small(rt.alloc()) else {
        panic!(rt; "not opened");
    };
    let rows = fill(&rt, &manager, &mut session);
    let third = mend(&rt, &manager, &mut session, rows);
    compare(&rt, &manager, &mut session, rows, third);
    close(&rt, rt.alloc(), manager, session);
    Ok(())
}
