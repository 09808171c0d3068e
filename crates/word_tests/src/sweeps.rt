//! A seat sweeps under the full hold while another asks for leaves.

ghost use Rattle.std.specs.Prelude.{◌≡◌, []};
ghost use Rattle.words_rule.specs.Passes.{view};
ghost use Rattle.word_tests.specs.Seats.{IsCalm, IsHeld, IsReady};

use crate::seated::ask_under_share;
use crate::tables::{Three, table_of_three};
use dead_sweep::Swept;
use hold_calls::swept;
use std::alloc::Global;
use std::marker::Brand;
use std::process::Abort;
use std::sync::Wait;
use std::test::Fail;
use std::thread::{Threads, join};
use table_shelves::TableShelf;
use words_holder::Holder;
use words_rule::seat::{FullHold, Guard, Pass};

/// A sweep under the full hold.
fn sweep_held<R: Wait>(
    rt: &R,
    guard: &Guard<TableShelf>,
    hold: FullHold<TableShelf>,
) -> (FullHold<TableShelf>, Swept)
    requires held { IsHeld guard.now hold }
    requires zeros { (view hold.pass).counts.zeros ≡ [] }
    ensures { IsHeld guard.now result.0 }
{
    let (holder, room) = Holder::new(rt, guard, hold);
    let (holder, room, swept) = swept::<R, Holder<'_, TableShelf>, Brand>(rt, holder, room);
    (holder.into_hold(room), swept)
}

/// A sweep by a seat, and how many slots are in use then.
fn sweep_once<R: Wait>(
    rt: &R,
    guard: &Guard<TableShelf>,
    pass: Pass<TableShelf>,
) -> (Pass<TableShelf>, u32)
    requires { IsCalm guard.now pass }
    ensures { IsCalm guard.now result.0 }
{
    let hold = guard.order_wait(rt, pass);
    let hold = guard.full_wait(rt, hold);
    let (hold, swept) = sweep_held(rt, guard, hold);
    let hold = guard.full_out(hold);
    (guard.order_out(hold), swept.in_use)
}

/// So many sweeps, each of which leaves no more than the permanent slots and the leaves that may be asked for.
fn sweep_often<R: Wait + Abort>(
    rt: &R,
    guard: &Guard<TableShelf>,
    pass: Pass<TableShelf>,
    times: u32,
) -> Pass<TableShelf>
    requires { IsCalm guard.now pass }
    ensures { IsCalm guard.now result }
{
    let mut mine = pass;
    for _ in 0..times {
        let (next, in_use) = sweep_once(rt, guard, mine);
        assert!(rt; in_use >= 5 && in_use <= 205);
        mine = next;
    }
    mine
}

/// So many times all leaves are asked for.
fn ask_often<R: Wait + Abort>(
    rt: &R,
    alloc: Global,
    guard: &Guard<TableShelf>,
    pass: Pass<TableShelf>,
    times: u32,
) -> Pass<TableShelf>
    requires { IsReady guard.now pass }
    ensures { IsReady guard.now result }
{
    let mut mine = pass;
    for _ in 0..times {
        mine = ask_under_share(rt, alloc, guard, mine, false);
    }
    mine
}

/// A seat asks for 200 leaves again and again, while another sweeps: each time all are there, though none is held, and there is room for
/// no more; and a sweep behind both leaves the permanent slots alone.
#[test]
fn leaves_are_asked_for_beside_sweeps(rt: HostRuntime) -> Result<(), Fail> {
    let alloc = rt.alloc();
    let Three {
        guard,
        mine,
        first,
        second,
    } = table_of_three(alloc, 0, 0, 205)?;
    let guard = &guard;
    let rt = &rt;
    join(
        rt,
        move ||
            requires { IsReady guard.now first }
        { ask_often(rt, alloc, guard, first, 20) },
        move ||
            requires { IsCalm guard.now second }
        { sweep_often(rt, guard, second, 20) },
    );
    let (_mine, in_use) = sweep_once(rt, guard, mine);
    assert!(rt; in_use == 5);
    Ok(())
}
