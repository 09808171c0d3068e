//! Shares and holds of one session, and what two others in threads of their own are given beside them.

ghost use Rattle.word_tests.specs.Tidy.{IsTidy};

use crate::tables::{Three, table_of_three};
use std::alloc::Global;
use std::process::Abort;
use std::sync::Wait;
use std::test::Fail;
use std::thread::{Threads, join};
use table_shelves::TableShelf;
use words_rule::seat::{Guard, Pass};

/// Whether there was an operation share for a session. It is given back.
fn operates(guard: &Guard<TableShelf>, pass: Pass<TableShelf>) -> (Pass<TableShelf>, bool)
    requires { IsTidy guard.now pass }
    ensures { IsTidy guard.now result.0 }
{
    match guard.op_in(pass) {
        Ok(share) => (guard.op_out(share), true),
        Err((pass, _)) => (pass, false),
    }
}

/// Whether there was the order for a session. It is given back.
fn orders(guard: &Guard<TableShelf>, pass: Pass<TableShelf>) -> (Pass<TableShelf>, bool)
    requires { IsTidy guard.now pass }
    ensures { IsTidy guard.now result.0 }
{
    match guard.try_order(pass) {
        Ok(hold) => (guard.order_out(hold), true),
        Err((pass, _)) => (pass, false),
    }
}

/// Whether there was a walk share for a session. It is given back.
fn walks(guard: &Guard<TableShelf>, pass: Pass<TableShelf>) -> (Pass<TableShelf>, bool)
    requires { IsTidy guard.now pass }
    ensures { IsTidy guard.now result.0 }
{
    match guard.walk_in(pass) {
        Ok(share) => (guard.walk_out(share), true),
        Err((pass, _)) => (pass, false),
    }
}

/// What two sessions were given beside a third one's share or hold.
#[derive(Drop)]
struct Beside {
    first: Pass<TableShelf>,
    second: Pass<TableShelf>,
    operation: bool,
    order: bool,
    walk: bool,
}

/// Two sessions in a thread each: the first asks for an operation share and then for the order, the second for a walk share.
fn ask_both<R: Threads + Sync>(
    rt: &R,
    guard: &Guard<TableShelf>,
    first: Pass<TableShelf>,
    second: Pass<TableShelf>,
) -> Beside
    requires first { IsTidy guard.now first }
    requires second { IsTidy guard.now second }
    ensures { IsTidy guard.now result.first × IsTidy guard.now result.second }
{
    let ((first, operation, order), (second, walk)) = join(
        rt,
        move || -> (Pass<TableShelf>, bool, bool)
            requires { IsTidy guard.now first }
            ensures { IsTidy guard.entry.now result.0 }
        {
            let (first, operation) = operates(guard, first);
            let (first, order) = orders(guard, first);
            (first, operation, order)
        },
        move || -> (Pass<TableShelf>, bool)
            requires { IsTidy guard.now second }
            ensures { IsTidy guard.entry.now result.0 }
        { walks(guard, second) },
    );
    Beside {
        first,
        second,
        operation,
        order,
        walk,
    }
}

/// Beside an operation share there are further ones and walk shares, and no order.
fn beside_a_share<R: Abort + Threads + Wait + Sync>(
    rt: &R,
    guard: &Guard<TableShelf>,
    mine: Pass<TableShelf>,
    first: Pass<TableShelf>,
    second: Pass<TableShelf>,
) -> (Pass<TableShelf>, Beside)
    requires mine { IsTidy guard.now mine }
    requires first { IsTidy guard.now first }
    requires second { IsTidy guard.now second }
    ensures { IsTidy guard.now result.0 × IsTidy guard.now result.1.first × IsTidy guard.now result.1.second }
{
    let share = guard.op_wait(rt, mine);
    let told = ask_both(rt, guard, first, second);
    assert!(rt; told.operation && told.walk && !told.order);
    (guard.op_out(share), told)
}

/// Beside the order there are walk shares, and no operation share and no second order; beside the full hold there is nothing.
fn beside_the_holds<R: Abort + Threads + Wait + Sync>(
    rt: &R,
    guard: &Guard<TableShelf>,
    mine: Pass<TableShelf>,
    first: Pass<TableShelf>,
    second: Pass<TableShelf>,
) -> (Pass<TableShelf>, Beside)
    requires mine { IsTidy guard.now mine }
    requires first { IsTidy guard.now first }
    requires second { IsTidy guard.now second }
    ensures { IsTidy guard.now result.0 × IsTidy guard.now result.1.first × IsTidy guard.now result.1.second }
{
    let order = guard.order_wait(rt, mine);
    let told = ask_both(rt, guard, first, second);
    assert!(rt; told.walk && !told.operation && !told.order);
    let full = guard.full_wait(rt, order);
    let told = ask_both(rt, guard, told.first, told.second);
    assert!(rt; !told.walk && !told.operation && !told.order);
    let order = guard.full_out(full);
    (guard.order_out(order), told)
}

/// Shares and holds exclude each other as they should, and what is given back is there again.
#[test]
fn shares_and_holds_stand_apart(rt: HostRuntime) -> Result<(), Fail> {
    let Three {
        guard,
        mine,
        first,
        second,
    } = table_of_three(rt.alloc(), 3, 2, 100)?;
    let (mine, told) = beside_a_share(&rt, &guard, mine, first, second);
    let (mine, told) = beside_the_holds(&rt, &guard, mine, told.first, told.second);
    let (_, again) = beside_a_share(&rt, &guard, mine, told.first, told.second);
    assert!(&rt; again.walk);
    Ok(())
}
