//! Shares and holds of one session, and what two others in threads of their own are given beside them.

ghost use Rattle.std.specs.Prelude.{◌≡◌, ◌≤◌, [], IfOk};
ghost use Rattle.seat_tests.specs.Bare.{IsBare};

use crate::turns::Tally;
use seat_guard::opening::open;
use seat_guard::seat::{Guard, Pass};
use seat_guard::view::Opening;
use std::alloc::{AllocError, Global};
use std::process::Abort;
use std::sync::Wait;
use std::test::Fail;
use std::thread::{Threads, join};

/// Whether there was an operation share for a session. It is given back.
fn operates(guard: &Guard<Tally>, pass: Pass<Tally>) -> (Pass<Tally>, bool)
    requires { IsBare guard.now pass }
    ensures { IsBare guard.now result.0 }
{
    match guard.op_in(pass) {
        Ok(share) => (guard.op_out(share), true),
        Err((pass, _)) => (pass, false),
    }
}

/// Whether there was the order for a session. It is given back.
fn orders(guard: &Guard<Tally>, pass: Pass<Tally>) -> (Pass<Tally>, bool)
    requires { IsBare guard.now pass }
    ensures { IsBare guard.now result.0 }
{
    match guard.try_order(pass) {
        Ok(hold) => (guard.order_out(hold), true),
        Err((pass, _)) => (pass, false),
    }
}

/// Whether there was a walk share for a session. It is given back.
fn walks(guard: &Guard<Tally>, pass: Pass<Tally>) -> (Pass<Tally>, bool)
    requires { IsBare guard.now pass }
    ensures { IsBare guard.now result.0 }
{
    match guard.walk_in(pass) {
        Ok(share) => (guard.walk_out(share), true),
        Err((pass, _)) => (pass, false),
    }
}

/// What two sessions were given beside a third one's share or hold.
#[derive(Drop)]
struct Beside {
    first: Pass<Tally>,
    second: Pass<Tally>,
    operation: bool,
    order: bool,
    walk: bool,
}

/// Two sessions in a thread each: the first asks for an operation share and then for the order, the second for a walk share.
fn ask_both<R: Threads + Sync>(
    rt: &R,
    guard: &Guard<Tally>,
    first: Pass<Tally>,
    second: Pass<Tally>,
) -> Beside
    requires first { IsBare guard.now first }
    requires second { IsBare guard.now second }
    ensures { IsBare guard.now result.first × IsBare guard.now result.second }
{
    let ((first, operation, order), (second, walk)) = join(
        rt,
        move || -> (Pass<Tally>, bool, bool)
            requires { IsBare guard.now first }
            ensures { IsBare guard.entry.now result.0 }
        {
            let (first, operation) = operates(guard, first);
            let (first, order) = orders(guard, first);
            (first, operation, order)
        },
        move || -> (Pass<Tally>, bool)
            requires { IsBare guard.now second }
            ensures { IsBare guard.entry.now result.0 }
        { walks(guard, second) },
    );
    Beside {
        first,
        second,
        operation,
        order,
        walk,
    }
}

/// Beside an operation share there are further ones and walk shares, and no order.
fn beside_a_share<R: Abort + Threads + Wait + Sync>(
    rt: &R,
    guard: &Guard<Tally>,
    mine: Pass<Tally>,
    first: Pass<Tally>,
    second: Pass<Tally>,
) -> (Pass<Tally>, Beside)
    requires mine { IsBare guard.now mine }
    requires first { IsBare guard.now first }
    requires second { IsBare guard.now second }
    ensures { IsBare guard.now result.0 × IsBare guard.now result.1.first × IsBare guard.now result.1.second }
{
    let share = guard.op_wait(rt, mine);
    let told = ask_both(rt, guard, first, second);
    assert!(rt; told.operation && told.walk && !told.order);
    (guard.op_out(share), told)
}

/// Beside the order there are walk shares, and no operation share and no second order; beside the full hold there is nothing.
fn beside_the_holds<R: Abort + Threads + Wait + Sync>(
    rt: &R,
    guard: &Guard<Tally>,
    mine: Pass<Tally>,
    first: Pass<Tally>,
    second: Pass<Tally>,
) -> (Pass<Tally>, Beside)
    requires mine { IsBare guard.now mine }
    requires first { IsBare guard.now first }
    requires second { IsBare guard.now second }
    ensures { IsBare guard.now result.0 × IsBare guard.now result.1.first × IsBare guard.now result.1.second }
{
    let order = guard.order_wait(rt, mine);
    let told = ask_both(rt, guard, first, second);
    assert!(rt; told.walk && !told.operation && !told.order);
    let full = guard.full_wait(rt, order);
    let told = ask_both(rt, guard, told.first, told.second);
    assert!(rt; !told.walk && !told.operation && !told.order);
    let order = guard.full_out(full);
    (guard.order_out(order), told)
}

/// A table of three sessions.
fn three(alloc: Global) -> Result<(Guard<Tally>, Pass<Tally>, Pass<Tally>, Pass<Tally>), AllocError>
    ensures { IfOk result (λ r. IsBare r.0 r.1 × IsBare r.0 r.2 × IsBare r.0 r.3) }
{
    let key = Opening {
        vars: 0,
        elements: 0,
        slots: 0,
        sessions: 3,
    };
    let (guard, mut closing) = open(alloc, Tally { turns: 0 }, &key)?;
    let mine = guard.split(&mut closing);
    let first = guard.split(&mut closing);
    let second = guard.split(&mut closing);
    Ok((guard, mine, first, second))
}

/// Shares and holds exclude each other as they should, and what is given back is there again.
#[test]
fn shares_and_holds_stand_apart(rt: HostRuntime) -> Result<(), Fail> {
    let (guard, mine, first, second) = three(rt.alloc())?;
    let (mine, told) = beside_a_share(&rt, &guard, mine, first, second);
    let (mine, told) = beside_the_holds(&rt, &guard, mine, told.first, told.second);
    let (_, again) = beside_a_share(&rt, &guard, mine, told.first, told.second);
    assert!(&rt; again.walk);
    Ok(())
}
