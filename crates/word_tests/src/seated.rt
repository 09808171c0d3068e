//! Operators over seats of one table, one seat and two seats in threads.

ghost use Rattle.std.specs.Prelude.{◌≡◌};
ghost use Rattle.words_rule.specs.Passes.{view};
ghost use Rattle.words_rule.specs.Walkers.{besides_of};
ghost use Rattle.word_tests.specs.Seats.{IsIdleSeat, IsReady};

use crate::tables::{Three, table_of_three};
use edge_bits::VALUE_END;
use node_store::{Grow, Opened, Stop};
use std::alloc::Global;
use std::marker::Brand;
use std::process::Abort;
use std::sync::Wait;
use std::test::Fail;
use std::thread::{Threads, join};
use step_store::{Growing, Home};
use table_shelves::TableShelf;
use words_rule::seat::{Guard, Pass};
use words_rule::stepper::Stepper;
use words_rule::view::Besides;

/// What the leaf of a value that is not negative opens into.
fn leaf_of<G: Grow>(store: &mut G, value: i64) -> Result<Opened, Stop> {
    if value < 0 || value >= VALUE_END {
        return Ok(Opened::Leaf(0));
    }
    let leaf = store.leaf(value)?;
    Ok(store.open(leaf))
}

/// Asks for 200 leaves.
fn ask<G: Grow>(rt: &impl Abort, store: &mut G) {
    for value in 2..202 {
        assert!(rt; leaf_of(store, value) == Ok(Opened::Leaf(value)));
    }
}

/// The leaves that are there already, and one more, for which there is no slot.
fn ask_once_more<G: Grow>(rt: &impl Abort, store: &mut G) {
    ask(rt, store);
    assert!(rt; leaf_of(store, 202) == Err(Stop::Full));
}

/// Asks at a seat for 200 leaves, and for one more if it is the last to ask.
fn ask_at_home<'a, R: Wait + Abort, E: Home<Besides>>(
    rt: &R,
    stepper: Stepper<'a, TableShelf>,
    is_last: bool,
) -> Stepper<'a, TableShelf>
    requires own { IsIdleSeat stepper }
    requires home { (stepper.pass.seat.table_id.views_name ≡ E.number) × (besides_of stepper.pass.seat.table_id (view stepper.pass) ≡ E.rest) }
    ensures own { IsIdleSeat result }
    ensures home { besides_of result.pass.seat.table_id (view result.pass) ≡ E.rest }
{
    let mut store: Growing<'_, R, Stepper<'_, TableShelf>, E> = Growing::new(rt, stepper);
    if is_last {
        ask_once_more(rt, &mut store);
    } else {
        ask(rt, &mut store);
    }
    store.into_seat()
}

/// The same under an operation share.
pub fn ask_under_share<R: Wait + Abort>(
    rt: &R,
    alloc: Global,
    guard: &Guard<TableShelf>,
    pass: Pass<TableShelf>,
    is_last: bool,
) -> Pass<TableShelf>
    requires { IsReady guard.now pass }
    ensures { IsReady guard.now result }
{
    let share = guard.op_wait(rt, pass);
    let seat = guard.stepper(alloc, share, None);
    let seat = ask_at_home::<R, Brand>(rt, seat, is_last);
    let (share, _scratch) = seat.into_share();
    guard.op_out(share)
}

/// Two seats in threads ask for the same leaves at once: each is stored once, so that there is room for all, and none is left.
#[test]
fn leaves_are_stored_once(rt: HostRuntime) -> Result<(), Fail> {
    let alloc = rt.alloc();
    let Three {
        guard,
        mine,
        first,
        second,
    } = table_of_three(alloc, 0, 0, 205)?;
    let guard = &guard;
    let rt = &rt;
    join(
        rt,
        move ||
            requires { IsReady guard.now first }
        { ask_under_share(rt, alloc, guard, first, false) },
        move ||
            requires { IsReady guard.now second }
        { ask_under_share(rt, alloc, guard, second, false) },
    );
    ask_under_share(rt, alloc, guard, mine, true);
    Ok(())
}
