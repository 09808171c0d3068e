//! What is done by the seat of a table of words that sessions share.

ghost use Rattle.std.specs.Prelude.{◌≡◌, ◌*◌, ◌≤◌};
ghost use Rattle.words_rule.specs.Closings.{IsClosingOf, known};
ghost use Rattle.words_rule.specs.Endings.{AreBack};
ghost use Rattle.words_rule.specs.Passes.{view};
ghost use Rattle.words_rule.specs.Walkers.{besides_of};
ghost use Rattle.step_times.specs.Seats.{IsIdleSeat, IsReady, MayReturn};

use crate::work::{Done, Tasks, work};
use std::alloc::Global;
use std::marker::Brand;
use std::sync::Wait;
use step_store::{Growing, Home};
use table_shelves::{TableShelf, open};
use words_rule::closing::Closing;
use words_rule::seat::{Guard, Pass};
use words_rule::stepper::Stepper;
use words_rule::view::{Besides, Opening};

/// The work at a seat with an operation share.
fn work_at_home<'a, R: Wait, E: Home<Besides>>(
    rt: &R,
    stepper: Stepper<'a, TableShelf>,
    tasks: Tasks,
) -> (Stepper<'a, TableShelf>, Done)
    requires own { IsIdleSeat stepper }
    requires home { (stepper.pass.seat.table_id.views_name ≡ E.number) × (besides_of stepper.pass.seat.table_id (view stepper.pass) ≡ E.rest) }
    requires few { tasks.pairs ≤ 16 }
    requires vars { 2 * tasks.pairs ≤ (view stepper.pass).draws.vars }
    ensures own { IsIdleSeat result.0 }
    ensures home { besides_of result.0.pass.seat.table_id (view result.0.pass) ≡ E.rest }
{
    let mut store: Growing<'_, R, Stepper<'_, TableShelf>, E> = Growing::new(rt, stepper);
    let done = work(&mut store, tasks);
    (store.into_seat(), done)
}

/// The work of a seat, which takes an operation share for it.
fn work_under_share<R: Wait>(
    rt: &R,
    alloc: Global,
    guard: &Guard<TableShelf>,
    pass: Pass<TableShelf>,
    tasks: Tasks,
) -> (Pass<TableShelf>, Done)
    requires ready { IsReady guard.now pass }
    requires few { tasks.pairs ≤ 16 }
    requires vars { 2 * tasks.pairs ≤ (view pass).draws.vars }
    ensures back { MayReturn guard.now result.0 }
    ensures same { (view result.0).draws ≡ (view pass).draws }
{
    let share = guard.op_wait(rt, pass);
    let seat = guard.stepper(alloc, share, None);
    let (seat, done) = work_at_home::<R, Brand>(rt, seat, tasks);
    let (share, _scratch) = seat.into_share();
    (guard.op_out(share), done)
}

/// Closes a table to which all sessions came back, and frees it.
fn close(guard: Guard<TableShelf>, closing: Closing<TableShelf>)
    requires own { IsClosingOf guard closing }
    requires back { AreBack (known closing).given (known closing).gone }
{
    let mut closed = guard.close(closing);
    let mut slot = 0;
    while slot < closed.slot_count() {
        drop(closed.take(slot));
        slot += 1;
    }
    closed.free();
}

/// What is done at a table with so many variables and slots, if there is memory for it.
pub fn at_words<R: Wait>(rt: &R, alloc: Global, vars: u32, slots: u32, tasks: Tasks) -> Option<Done>
    requires vars { vars ≤ 1024 }
    requires slots { slots ≡ 262144 }
    requires few { tasks.pairs ≤ 16 }
    requires pairs { 2 * tasks.pairs ≤ vars }
{
    let key = Opening {
        vars,
        elements: 0,
        slots,
        sessions: 1,
    };
    let (guard, mut closing) = open(alloc, &key).ok()?;
    let pass = guard.split(&mut closing);
    let (pass, done) = work_under_share(rt, alloc, &guard, pass, tasks);
    guard.join(&mut closing, pass);
    close(guard, closing);
    Some(done)
}
