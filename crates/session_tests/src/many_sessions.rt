//! Sixty-four sessions, and handles that stay right while others sweep.

ghost use Rattle.std.specs.Prelude.{◌≡◌, ◌<◌, All, IfOk};
ghost use Rattle.dd_session.specs.Sessions.{Seen};

use crate::calls::{and, drop_row, eval, fetch, post, same, sweep, var};
use dd_session::{Config, Fetched, H, Manager, OpenFault, Session};
use std::alloc::Global;
use std::process::Abort;
use std::sync::Wait;
use std::test::Fail;

/// A manager of four variables, and its sessions.
fn open_four(alloc: Global, sessions: u32) -> Result<(Manager, Vec<Session>), OpenFault>
    ensures manager { IfOk result (λ r. r.0.vars ≡ 4) }
    ensures own { IfOk result (λ r. All (λ (s : Seen). s.manager ≡ r.0) r.1.items) }
{
    let config = Config {
        vars: 4,
        elements: 0,
        limit: 1000,
    };
    let (manager, all) = Manager::open(alloc, config, sessions)?;
    Ok((manager, all))
}

/// What one session does: it takes what the one before it posted, puts a variable to it, drops what it has no use for, and
/// posts that for the next.
fn take_part<R: Abort + Wait>(rt: &R, manager: &Manager, session: &mut Session, number: u8)
    requires own { session.old.manager ≡ manager.now }
    requires variables { manager.now.vars ≡ 4 }
    requires number { number < 64 }
    ensures { session.new.manager ≡ session.old.manager }
{
    let own = var(rt, manager, session, u32::from(number) % 4);
    let (taken, from) = fetch(rt, manager, session, number, own);
    assert!(rt; (from == Fetched::Posted) == (number > 0));
    let Some(both) = and(rt, manager, session, taken, own) else {
        panic!(rt; "full");
    };
    drop_row(rt, manager, session, own);
    let _in_use = sweep(rt, manager, session);
    post(rt, manager, session, number + 1, both);
    assert!(rt; session.live() == 2 && session.fulls() == 0);
}

/// Each of sixty-four sessions takes part; none has another's calls or rows.
#[test]
fn sixty_four_sessions(rt: HostRuntime) -> Result<(), Fail> {
    let Ok((manager, sessions)) = open_four(rt.alloc(), 64) else {
        panic!(rt; "not opened");
    };
    let mut number = 0u8;
    for mut session in sessions {
        assert!(rt; session.calls() == 0 && session.live() == 0 && number < 64);
        take_part(&rt, &manager, &mut session, number);
        number += 1;
    }
    assert!(rt; number == 64);
    Ok(())
}

/// The value of a row where the second variable is true, and the first as told.
fn value_is<R: Abort + Wait>(
    rt: &R,
    manager: &Manager,
    session: &mut Session,
    f: H,
    first: bool,
    value: i64,
)
    requires own { session.old.manager ≡ manager.now }
    requires variables { manager.now.vars ≡ 4 }
    ensures { (session.new.manager ≡ session.old.manager) × (session.new.number ≡ session.old.number) }
{
    let bits = [first, true, false, false];
    assert!(rt; eval(rt, manager, session, f, &bits) == value);
}

/// Two variables, and their conjunction.
#[derive(Clone, Copy, Drop)]
struct Held {
    a: H,
    b: H,
    both: H,
}

/// Makes rows of the first two variables.
fn hold<R: Abort + Wait>(rt: &R, manager: &Manager, session: &mut Session) -> Held
    requires own { session.old.manager ≡ manager.now }
    requires variables { manager.now.vars ≡ 4 }
    ensures { (session.new.manager ≡ session.old.manager) × (session.new.number ≡ session.old.number) }
{
    let a = var(rt, manager, session, 0);
    let b = var(rt, manager, session, 1);
    let Some(both) = and(rt, manager, session, a, b) else {
        panic!(rt; "full");
    };
    Held { a, b, both }
}

/// Makes a row of the last two variables, drops it and sweeps.
fn drop_and_sweep<R: Abort + Wait>(rt: &R, manager: &Manager, session: &mut Session)
    requires own { session.old.manager ≡ manager.now }
    requires variables { manager.now.vars ≡ 4 }
{
    let c = var(rt, manager, session, 2);
    let d = var(rt, manager, session, 3);
    let Some(dropped) = and(rt, manager, session, c, d) else {
        panic!(rt; "full");
    };
    assert!(rt; sweep(rt, manager, session) == 11);
    drop_row(rt, manager, session, dropped);
    assert!(rt; sweep(rt, manager, session) == 10);
}

/// The rows that were held are as they were.
fn still_held<R: Abort + Wait>(rt: &R, manager: &Manager, session: &mut Session, held: Held)
    requires own { session.old.manager ≡ manager.now }
    requires variables { manager.now.vars ≡ 4 }
{
    let Held { a, b, both } = held;
    let Some(again) = and(rt, manager, session, b, a) else {
        panic!(rt; "full");
    };
    assert!(rt; same(rt, manager, session, both, again));
    assert!(rt; !same(rt, manager, session, both, a));
    value_is(rt, manager, session, both, true, 1);
    value_is(rt, manager, session, both, false, 0);
}

/// What one session holds stays right while another makes rows and sweeps.
fn outlast<R: Abort + Wait>(rt: &R, manager: &Manager, session: &mut Session, other: &mut Session)
    requires own { (session.old.manager ≡ manager.now) × (other.old.manager ≡ manager.now) }
    requires variables { manager.now.vars ≡ 4 }
{
    let held = hold(rt, manager, session);
    drop_and_sweep(rt, manager, other);
    still_held(rt, manager, session, held);
}

#[test]
fn handles_outlast_sweeps_of_others(rt: HostRuntime) -> Result<(), Fail> {
    let Ok((manager, mut sessions)) = open_four(rt.alloc(), 2) else {
        panic!(rt; "not opened");
    };
    let (Some(mut other), Some(mut session)) = (sessions.pop(), sessions.pop()) else {
        panic!(rt; "no two sessions");
    };
    outlast(&rt, &manager, &mut session, &mut other);
    Ok(())
}
