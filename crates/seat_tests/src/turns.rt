//! Two sessions, each in a thread, take turns.

ghost use Rattle.std.specs.Prelude.{◌≡◌, ◌+◌, ◌<◌, ◌^◌, ◌≤◌, List, [], length, None, replicate, IfOk};
ghost use Rattle.seat_guard.specs.Passes.{known, shares, HasSettled, IsIdle};
ghost use Rattle.seat_guard.specs.Phase.{HasNoShare};

use seat_guard::content::Content;
use seat_guard::opening::open;
use seat_guard::seat::{Guard, Pass};
use seat_guard::view::Opening;
use std::alloc::{AllocError, Global};
use std::marker::Brand;
use std::process::Abort;
use std::sync::Wait;
use std::test::Fail;
use std::thread::{Threads, join};

/// What they share: how often the turn was taken.
#[derive(Drop)]
pub(crate) struct Tally {
    pub(crate) turns: u64,
}

impl Content for Tally {
    ghost use Rattle.function_laws.specs.EntryOrders.{opening_orders};
    ghost use Rattle.seat_guard.specs.Views.{sizes_for};

    ghost keeps = { λ tally held. Unit {0} };

    ghost board = { λ tally. replicate 256 None };

    ghost counts = { λ tally. (0, 0, 0) };

    ghost orders = { λ tally. opening_orders (sizes_for 0 0) };

    ghost functions = { λ tally. [] };

    ghost due = { λ tally. None };
}

/// One turn, with one call.
fn turn<R: Wait>(rt: &R, guard: &Guard<Tally>, pass: &mut Pass<Tally>) -> u64
    requires idle { IsIdle guard.now pass.old }
    requires room { length (known pass.old).entries < 2 ^ 48 }
    requires settled { HasSettled pass.old }
    ensures idle { IsIdle guard.now pass.new }
    ensures session { (known pass.new).session ≡ (known pass.old).session }
    ensures settled { HasSettled pass.new }
    ensures stands { shares pass.new ≡ shares pass.old }
    ensures more { length (known pass.new).entries ≡ length (known pass.old).entries + 1 }
{
    let mut tally = guard.take(rt, pass);
    tally.turns = tally.turns.wrapping_add(1);
    let place = guard.place::<Brand>(pass);
    guard.put_back::<Brand>(pass, tally);
    place
}

/// So many turns. How often the place was above the one before.
fn turns<R: Wait>(
    rt: &R,
    guard: &Guard<Tally>,
    mut pass: Pass<Tally>,
    times: u32,
) -> (Pass<Tally>, u32)
    requires idle { IsIdle guard.now pass }
    requires new { (known pass).entries ≡ [] }
    requires unshared { HasNoShare (shares pass) }
    requires settled { HasSettled pass }
    ensures idle { IsIdle guard.now result.0 }
    ensures settled { HasSettled result.0 }
    ensures unshared { HasNoShare (shares result.0) }
    ensures session { (known result.0).session ≡ (known pass).session }
{
    let mut last = None;
    let mut above = 0u32;
    for _ in 0..times {
        let place = turn(rt, guard, &mut pass);
        if last < Some(place) {
            above = above.saturating_add(1);
        }
        last = Some(place);
    }
    (pass, above)
}

/// How many calls there were, how often the turn was taken, and how often a place was above the one before.
#[derive(Drop)]
struct Told {
    calls: u64,
    turns: u64,
    above: (u32, u32),
}

/// Two sessions, each in a thread with so many turns.
fn two<R: Threads + Wait + Sync>(rt: &R, alloc: Global, times: u32) -> Result<Told, AllocError> {
    let key = Opening {
        vars: 0,
        elements: 0,
        slots: 0,
        sessions: 2,
    };
    let (guard, mut closing) = open(alloc, Tally { turns: 0 }, &key)?;
    let first = guard.split(&mut closing);
    let second = guard.split(&mut closing);
    let shared = &guard;
    let ((first, low), (second, high)) = join(
        rt,
        move || -> (Pass<Tally>, u32)
            requires { IsIdle shared.now first × ((known first).entries ≡ []) × HasNoShare (shares first) × HasSettled first × ((known first).session ≡ 0) }
            ensures { IsIdle shared.entry.now result.0 × HasNoShare (shares result.0) × HasSettled result.0 × ((known result.0).session ≡ 0) }
        { turns(rt, shared, first, times) },
        move || -> (Pass<Tally>, u32)
            requires { IsIdle shared.now second × ((known second).entries ≡ []) × HasNoShare (shares second) × HasSettled second × ((known second).session ≡ 1) }
            ensures { IsIdle shared.entry.now result.0 × HasNoShare (shares result.0) × HasSettled result.0 × ((known result.0).session ≡ 1) }
        { turns(rt, shared, second, times) },
    );
    guard.join(&mut closing, first);
    guard.join(&mut closing, second);
    let calls = guard.calls(&mut closing);
    let tally = guard.take_last(rt, &mut closing);
    Ok(Told {
        calls,
        turns: tally.turns,
        above: (low, high),
    })
}

/// All of 20,000 turns of each session are told.
fn is_whole(rt: &impl Abort, told: &Told) {
    assert!(rt; told.calls == 40_000);
    assert!(rt; told.turns == 40_000);
    assert!(rt; told.above == (20_000, 20_000));
}

/// No turn is lost, no place is drawn twice, and each session's places rise.
#[test]
fn two_threads_take_turns(rt: HostRuntime) -> Result<(), Fail> {
    let told = two(&rt, rt.alloc(), 20_000)?;
    is_whole(&rt, &told);
    Ok(())
}
