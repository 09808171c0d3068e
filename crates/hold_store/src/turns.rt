//! What a holder takes in hand at first, and gives back at last.

ghost use Rattle.std.specs.Prelude.{◌≡◌, ℕ, ◌+◌, ◌<◌, List, [], ◌∷◌, Bool, None, Some, false};
ghost use Rattle.hold_store.specs.Held.{IsReady, all_turns, down, handed, idle};

use crate::holds::Holds;
use crossbeam_utils::Backoff;
use std::sync::Wait;

/// Waits for the turn of a level.
fn claim_turn<R: Wait, S: Holds>(rt: &R, seat: &mut S, level: u32)
    requires own { S.holds seat.old }
    requires within { level < all_turns (S.known seat.old) }
    ensures own { S.holds seat.new }
    ensures home { (S.table seat.new ≡ S.table seat.old) × (S.rest seat.new ≡ S.rest seat.old) }
    ensures taken { S.known seat.new ≡ handed (S.known seat.old) (record (S.known seat.old).hand { levels = level ∷ (S.known seat.old).hand.levels }) }
{
    let backoff = Backoff::new();
    for _ in rt.forever() {
        if seat.peek_turn(level) && seat.take_turn(level) {
            return;
        }
        backoff.snooze();
    }
    unreachable!()
}

/// Waits for the free list.
fn claim_free<R: Wait, S: Holds>(rt: &R, seat: &mut S)
    requires own { S.holds seat.old }
    ensures own { S.holds seat.new }
    ensures home { (S.table seat.new ≡ S.table seat.old) × (S.rest seat.new ≡ S.rest seat.old) }
    ensures taken { (list : List ℕ) × (S.known seat.new ≡ handed (S.known seat.old) (record (S.known seat.old).hand { free = Some list })) }
{
    let backoff = Backoff::new();
    for _ in rt.forever() {
        if seat.peek_free() && seat.take_free() {
            return;
        }
        backoff.snooze();
    }
    unreachable!()
}

/// Waits for the computed table.
fn claim_memo<R: Wait, S: Holds>(rt: &R, seat: &mut S)
    requires own { S.holds seat.old }
    ensures own { S.holds seat.new }
    ensures home { (S.table seat.new ≡ S.table seat.old) × (S.rest seat.new ≡ S.rest seat.old) }
    ensures taken { (named : ℕ → Bool) × (S.known seat.new ≡ handed (S.known seat.old) (record (S.known seat.old).hand { named = Some named })) }
{
    let backoff = Backoff::new();
    for _ in rt.forever() {
        if seat.take_memo() {
            return;
        }
        backoff.snooze();
    }
    unreachable!()
}

/// Takes the computed table, without any answer.
pub(crate) fn claim_no_answers<R: Wait, S: Holds>(rt: &R, seat: &mut S)
    requires own { S.holds seat.old }
    ensures own { S.holds seat.new }
    ensures home { (S.table seat.new ≡ S.table seat.old) × (S.rest seat.new ≡ S.rest seat.old) }
    ensures cleared { S.known seat.new ≡ handed (S.known seat.old) (record (S.known seat.old).hand { named = Some (λ _. false) }) }
{
    claim_memo(rt, seat);
    seat.clear_memo();
}

/// Takes the turns of all levels.
fn claim_turns<R: Wait, S: Holds>(rt: &R, seat: &mut S)
    requires own { S.holds seat.old }
    requires none { (S.known seat.old).hand.levels ≡ [] }
    ensures own { S.holds seat.new }
    ensures home { (S.table seat.new ≡ S.table seat.old) × (S.rest seat.new ≡ S.rest seat.old) }
    ensures taken { S.known seat.new ≡ handed (S.known seat.old) (record (S.known seat.old).hand { levels = down (all_turns (S.known seat.old)) }) }
{
    let count = seat.vars() + seat.elements() + 1;
    for level in 0..count {
        claim_turn(rt, seat, level);
    }
}

/// Gives the turns back of a level and of all before it.
fn give_down<S: Holds>(seat: &mut S, level: u32)
    requires own { S.holds seat.old }
    requires all { (S.known seat.old).hand.levels ≡ down (level + 1) }
    requires calm { (S.known seat.old).hand.loose ≡ None }
    ensures own { S.holds seat.new }
    ensures home { (S.table seat.new ≡ S.table seat.old) × (S.rest seat.new ≡ S.rest seat.old) }
    ensures given { S.known seat.new ≡ handed (S.known seat.old) (record (S.known seat.old).hand { levels = []; walk = None }) }
{
    seat.give_turn(level);
    for given in 0..level {
        seat.give_turn(level - 1 - given);
    }
}

/// Gives the turns of all levels back.
fn give_turns<S: Holds>(seat: &mut S)
    requires own { S.holds seat.old }
    requires all { (S.known seat.old).hand.levels ≡ down (all_turns (S.known seat.old)) }
    requires calm { (S.known seat.old).hand.loose ≡ None }
    ensures own { S.holds seat.new }
    ensures home { (S.table seat.new ≡ S.table seat.old) × (S.rest seat.new ≡ S.rest seat.old) }
    ensures given { S.known seat.new ≡ handed (S.known seat.old) (record (S.known seat.old).hand { levels = []; walk = None }) }
{
    let leaves = seat.vars() + seat.elements();
    give_down(seat, leaves);
}

/// Takes the turns of all levels and the free list.
pub(crate) fn take_all<R: Wait, S: Holds>(rt: &R, seat: &mut S)
    requires own { S.holds seat.old }
    requires idle { (S.known seat.old).hand ≡ idle }
    ensures own { S.holds seat.new }
    ensures home { (S.table seat.new ≡ S.table seat.old) × (S.rest seat.new ≡ S.rest seat.old) }
    ensures ready { IsReady (S.known seat.new) }
    ensures same { S.known seat.new ≡ handed (S.known seat.old) (S.known seat.new).hand }
    ensures named { (S.known seat.new).hand.named ≡ None }
{
    claim_turns(rt, seat);
    claim_free(rt, seat);
}

/// Gives them back.
pub(crate) fn give_all<S: Holds>(seat: &mut S)
    requires own { S.holds seat.old }
    requires ready { IsReady (S.known seat.old) }
    requires named { (S.known seat.old).hand.named ≡ None }
    ensures own { S.holds seat.new }
    ensures home { (S.table seat.new ≡ S.table seat.old) × (S.rest seat.new ≡ S.rest seat.old) }
    ensures given { S.known seat.new ≡ handed (S.known seat.old) idle }
{
    seat.give_free();
    give_turns(seat);
}
