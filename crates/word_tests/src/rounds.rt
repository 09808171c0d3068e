//! Two sessions, each in a thread, make calls and take the order in turn.

ghost use Rattle.std.specs.Prelude.{◌≡◌, ◌+◌, ◌<◌, ◌^◌, ◌≤◌, List, ℕ, [], length, IfOk};
ghost use Rattle.function_laws.specs.declared.history.Function.{Function};
ghost use Rattle.words_rule.specs.declared.view.Hold.TheVariants.{Holding};
ghost use Rattle.words_rule.specs.Passes.{in_hand, view, IsLiveOf, IsPassOf};
ghost use Rattle.words_rule.specs.Closings.{IsClosingOf, known};
ghost use Rattle.words_rule.specs.Endings.{AreBack};
ghost use Rattle.word_tests.specs.Tidy.{IsTidy};

use edge_bits::Memory;
use std::alloc::Global;
use std::marker::Brand;
use std::process::Abort;
use std::sync::Wait;
use std::test::Fail;
use std::thread::{Threads, join};
use table_shelves::{TableShelf, open};
use words_rule::closing::Closing;
use words_rule::seat::{Guard, Pass};
use words_rule::view::Opening;

/// How many slots the table has.
const SLOTS: u32 = 100;

/// One call under an operation share, and its place.
fn call<R: Wait>(
    rt: &R,
    guard: &Guard<TableShelf>,
    pass: Pass<TableShelf>,
) -> (Pass<TableShelf>, u64)
    requires tidy { IsTidy guard.now pass }
    requires room { length (view pass).draws.entries < 2 ^ 48 }
    ensures tidy { IsTidy guard.now result.0 }
    ensures same { ((view result.0).draws.session ≡ (view pass).draws.session) × ((view result.0).draws.slots ≡ (view pass).draws.slots) }
    ensures more { length (view result.0).draws.entries ≡ length (view pass).draws.entries + 1 }
{
    let mut share = guard.op_wait(rt, pass);
    let place = guard.place::<Brand>(&mut share.pass);
    (guard.op_out(share), place)
}

/// How often all slots are counted, under the order hold.
fn count_all(guard: &Guard<TableShelf>, pass: &mut Pass<TableShelf>) -> u64
    requires own { IsLiveOf guard.now pass.old }
    requires slots { (view pass.old).draws.slots ≡ SLOTS }
    requires hold { (view pass.old).shares.order ≡ Holding }
    ensures own { IsPassOf guard.now pass.new × (in_hand pass.new ≡ in_hand pass.old) }
    ensures noted { (zeros : List ℕ) × (above : List Function) × (view pass.new ≡ record (view pass.old) { counts = record (view pass.old).counts { zeros = zeros; above = above } }) }
{
    let mut sum = 0u64;
    for slot in 0..SLOTS {
        sum = sum.saturating_add(u64::from(guard.load_count(pass, slot)));
    }
    sum
}

/// Takes the order, and counts all slots.
fn look_through<R: Wait>(
    rt: &R,
    guard: &Guard<TableShelf>,
    pass: Pass<TableShelf>,
) -> (Pass<TableShelf>, u64)
    requires tidy { IsTidy guard.now pass }
    requires slots { (view pass).draws.slots ≡ SLOTS }
    ensures tidy { IsTidy guard.now result.0 }
    ensures same { (view result.0).draws ≡ (view pass).draws }
{
    let mut hold = guard.order_wait(rt, pass);
    let sum = count_all(guard, &mut hold.pass);
    (guard.order_out(hold), sum)
}

/// So many calls, with the order taken after each. How often the place was above the one before, and how often a slot was counted.
fn rounds<R: Wait>(
    rt: &R,
    guard: &Guard<TableShelf>,
    pass: Pass<TableShelf>,
    times: u32,
) -> (Pass<TableShelf>, u32, u64)
    requires tidy { IsTidy guard.now pass }
    requires new { (view pass).draws.entries ≡ [] }
    requires slots { (view pass).draws.slots ≡ SLOTS }
    ensures tidy { IsTidy guard.now result.0 }
    ensures session { (view result.0).draws.session ≡ (view pass).draws.session }
{
    let mut mine = pass;
    let mut last = None;
    let mut above = 0u32;
    let mut counted = 0u64;
    for _ in 0..times {
        let (next, place) = call(rt, guard, mine);
        let (next, sum) = look_through(rt, guard, next);
        mine = next;
        counted = counted.saturating_add(sum);
        if last < Some(place) {
            above = above.saturating_add(1);
        }
        last = Some(place);
    }
    (mine, above, counted)
}

/// How many calls there were, how often a place was above the one before, how often a slot was counted, and the word of shares and holds at the end.
#[derive(Drop)]
struct Told {
    calls: u64,
    above: (u32, u32),
    counted: (u64, u64),
    phase: u64,
}

/// Closes the table, and answers its word of shares and holds.
fn finish(guard: Guard<TableShelf>, closing: Closing<TableShelf>) -> u64
    requires own { IsClosingOf guard closing }
    requires back { AreBack (known closing).given (known closing).gone }
{
    let mut closed = guard.close(closing);
    let phase = closed.word(1);
    let mut i = 0;
    while i < closed.slot_count() {
        drop(closed.take(i));
        i += 1;
    }
    closed.free();
    phase
}

/// Two sessions, each in a thread with so many rounds.
fn two<R: Threads + Wait + Sync>(rt: &R, alloc: Global, times: u32) -> Result<Told, Memory> {
    let key = Opening {
        vars: 3,
        elements: 2,
        slots: SLOTS,
        sessions: 2,
    };
    let (guard, mut closing) = open(alloc, &key)?;
    let first = guard.split(&mut closing);
    let second = guard.split(&mut closing);
    let shared = &guard;
    let ((first, low, few), (second, high, many)) = join(
        rt,
        move || -> (Pass<TableShelf>, u32, u64)
            requires { IsTidy shared.now first × ((view first).draws.entries ≡ []) × ((view first).draws.slots ≡ SLOTS) × ((view first).draws.session ≡ 0) }
            ensures { IsTidy shared.entry.now result.0 × ((view result.0).draws.session ≡ 0) }
        { rounds(rt, shared, first, times) },
        move || -> (Pass<TableShelf>, u32, u64)
            requires { IsTidy shared.now second × ((view second).draws.entries ≡ []) × ((view second).draws.slots ≡ SLOTS) × ((view second).draws.session ≡ 1) }
            ensures { IsTidy shared.entry.now result.0 × ((view result.0).draws.session ≡ 1) }
        { rounds(rt, shared, second, times) },
    );
    guard.join(&mut closing, first);
    guard.join(&mut closing, second);
    let calls = guard.calls(&mut closing);
    let phase = finish(guard, closing);
    Ok(Told {
        calls,
        above: (low, high),
        counted: (few, many),
        phase,
    })
}

/// All calls are told, the places of each session rise, nothing was counted, and no share or hold is left.
fn is_whole(rt: &impl Abort, told: &Told) {
    assert!(rt; told.calls == 4_000);
    assert!(rt; told.above == (2_000, 2_000));
    assert!(rt; told.counted == (0, 0));
    assert!(rt; told.phase == 0);
}

/// No place is drawn twice, and the order goes back and forth.
#[test]
fn two_threads_call_and_order(rt: HostRuntime) -> Result<(), Fail> {
    let told = two(&rt, rt.alloc(), 2_000)?;
    is_whole(&rt, &told);
    Ok(())
}
