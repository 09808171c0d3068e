//! Two sessions, each in a thread: one posts and sweeps, the other fetches.

ghost use Rattle.std.specs.Prelude.{◌≡◌, ◌+◌, IfOk};
ghost use Rattle.dd_session.specs.Managing.{AreAll};

use crate::calls::{and, drop_row, fetch, post, same, sweep, var};
use dd_session::{Config, Fetched, Manager, OpenFault, Session};
use std::alloc::{AllocError, Global};
use std::process::Abort;
use std::sync::Wait;
use std::test::Fail;
use std::thread::{Threads, join};

/// Posts so many conjunctions, drops each and sweeps.
fn post_all<R: Abort + Wait>(rt: &R, manager: &Manager, mut session: Session, times: u32) -> Session
    requires own { session.manager ≡ manager.now }
    requires variables { manager.now.vars ≡ 2 }
    ensures { (result.manager ≡ session.manager) × (result.number ≡ session.number) }
{
    let a = var(rt, manager, &mut session, 0);
    let b = var(rt, manager, &mut session, 1);
    for _ in 0..times {
        let Some(both) = and(rt, manager, &mut session, a, b) else {
            panic!(rt; "full");
        };
        post(rt, manager, &mut session, 7, both);
        drop_row(rt, manager, &mut session, both);
        let _in_use = sweep(rt, manager, &mut session);
    }
    session
}

/// Fetches so often. What came from the board is the conjunction, and else it is the row that was named.
fn fetch_all<R: Abort + Wait>(
    rt: &R,
    manager: &Manager,
    mut session: Session,
    times: u32,
) -> Session
    requires own { session.manager ≡ manager.now }
    requires variables { manager.now.vars ≡ 2 }
    ensures { (result.manager ≡ session.manager) × (result.number ≡ session.number) }
{
    let a = var(rt, manager, &mut session, 0);
    let b = var(rt, manager, &mut session, 1);
    let Some(both) = and(rt, manager, &mut session, a, b) else {
        panic!(rt; "full");
    };
    for _ in 0..times {
        let (taken, from) = fetch(rt, manager, &mut session, 7, a);
        let wanted = if from == Fetched::Posted { both } else { a };
        assert!(rt; same(rt, manager, &mut session, taken, wanted));
        drop_row(rt, manager, &mut session, taken);
    }
    session
}

/// A manager of two variables, and its two sessions.
fn open_two(alloc: Global) -> Result<(Manager, Session, Session), OpenFault>
    ensures manager { IfOk result (λ r. (r.0.vars ≡ 2) × (r.0.sessions ≡ 2)) }
    ensures first { IfOk result (λ r. (r.1.manager ≡ r.0) × (r.1.number ≡ 0)) }
    ensures second { IfOk result (λ r. (r.2.manager ≡ r.0) × (r.2.number ≡ 1)) }
{
    let config = Config {
        vars: 2,
        elements: 0,
        limit: 100,
    };
    let (manager, mut sessions) = Manager::open(alloc, config, 2)?;
    let Some(second) = sessions.pop() else {
        unreachable!();
    };
    let Some(first) = sessions.pop() else {
        unreachable!();
    };
    Ok((manager, first, second))
}

/// Both sessions of a manager of two.
fn both_of(
    alloc: Global,
    manager: &Manager,
    first: Session,
    second: Session,
) -> Result<Vec<Session>, AllocError>
    requires first { (first.manager ≡ manager.now) × (first.number ≡ 0) }
    requires second { (second.manager ≡ manager.now) × (second.number ≡ 1) }
    requires two { manager.now.sessions ≡ 2 }
    ensures { IfOk result (λ all. AreAll manager.now all.items) }
{
    let mut all = Vec::new(alloc);
    all.push(first)?;
    all.push(second)?;
    Ok(all)
}

/// Both at once. All calls are counted, and no node is left.
fn run_two<R: Abort + Threads + Wait + Sync>(rt: &R, alloc: Global, times: u32) {
    let Ok((manager, first, second)) = open_two(alloc) else {
        panic!(rt; "not opened");
    };
    let shared = &manager;
    let (first, second) = join(
        rt,
        move || -> Session
            requires { (first.manager ≡ shared.now) × (first.number ≡ 0) × (shared.now.vars ≡ 2) }
            ensures { (result.manager ≡ shared.entry.now) × (result.number ≡ 0) }
        { post_all(rt, shared, first, times) },
        move || -> Session
            requires { (second.manager ≡ shared.now) × (second.number ≡ 1) × (shared.now.vars ≡ 2) }
            ensures { (result.manager ≡ shared.entry.now) × (result.number ≡ 1) }
        { fetch_all(rt, shared, second, times) },
    );
    let calls = first.calls().saturating_add(second.calls());
    let Ok(all) = both_of(alloc, &manager, first, second) else {
        panic!(rt; "no memory");
    };
    let closed = manager.close(rt, all);
    assert!(rt; closed.calls == calls && closed.left == 7);
}

/// What the second thread fetches is what the first posted, whoever comes first.
#[test]
fn a_post_and_a_fetch_in_two_threads(rt: HostRuntime) -> Result<(), Fail> {
    run_two(&rt, rt.alloc(), 300);
    Ok(())
}
