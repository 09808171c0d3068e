//! What a call leaves that adds a row, or that was refused.

ghost use Rattle.std.specs.Prelude.{◌≡◌, ◌+◌, ◌<◌, ◌≤◌, ◌^◌, ℕ, [], Err, IfOk, IsErrOf, IsTrue, MatchResult, Ok, Some, true};
ghost use Rattle.node_slots.specs.Stores.{IsStore};
ghost use Rattle.function_laws.specs.declared.history.Function.{Function};
ghost use Rattle.function_laws.specs.Steps.{TellsFull, may_be_full};
ghost use Rattle.node_store.specs.Views.{Is};
ghost use Rattle.seat_guard.specs.CountPlays.{MayRaise};
ghost use Rattle.seat_guard.specs.Passes.{IsPassOf, counts_of, in_hand, known, shares};
ghost use Rattle.seat_guard.specs.Recounts.{OnlyCounts};
ghost use Rattle.seat_guard.specs.Tallies.{raised_by};
ghost use Rattle.shared_store.specs.Sharing.{Serving, due, held_of, view_of};
ghost use Rattle.dd_session.specs.Requests.{added_as, call_of};
ghost use Rattle.dd_session.specs.Sessions.{reply_unmade};
ghost use Rattle.dd_session.specs.Turns.{AddsRow, Gives, HasPlace, IsAdded, IsCausedBy, IsHolding, IsRefused, IsSettled, Keeps, MayBeFull, MayCount, Notes, Settles, Told, outcome_unmade};

use crate::answers::{Full, Placed, Refusal};
use crate::book::Book;
use crate::drawing::finish;
use crate::request::{Adding, Answer, Request};
use edge_bits::{Edge, Kind};
use function_laws::Name;
use node_slots::Stop;
use operator_calls::Unmade;
use seat_guard::seat::{Guard, Pass};
use seat_guard::told::Raises;
use shared_store::{Cell, Shared, put_back};
use std::marker::Brand;

/// Counts the slot up of what is to be held, under a share or the full hold, and answers its generation.
pub fn raise<E: Raises>(
    guard: &Guard<Shared>,
    pass: &mut Pass<Shared>,
    shared: &Shared,
    cell: Cell,
) -> u32
    requires held { E.held ≡ held_of (view_of shared.now) cell }
    requires own { IsPassOf guard.now pass.old × ((known pass.old).live ≡ true) × ((known pass.old).holds ≡ true) }
    requires may { MayCount (shares pass.old) }
    requires serves { Serving shared.now (known pass.old) (counts_of pass.old) }
    requires place { HasPlace (known pass.old) }
    requires settled { IsSettled (counts_of pass.old) }
    requires is { Is cell.kind (view_of shared.now) cell.edge }
    ensures own { OnlyCounts guard.now pass.old pass.new }
    ensures store { IsStore shared.now.store }
    ensures raised { counts_of pass.new ≡ raised_by (held_of (view_of shared.now) cell) result (counts_of pass.old) }
{
    shared.store.tell_sound();
    guard.count_up::<E>(pass, cell.edge.index())
}

/// A new row of what the cell's edge denotes. There is room for it.
pub fn add_row(
    guard: &Guard<Shared>,
    pass: &mut Pass<Shared>,
    book: &mut Book,
    shared: Shared,
    request: Request<'_>,
    adding: Adding,
    cell: Cell,
) -> Placed<Name>
    requires hold { IsHolding guard.now pass.old }
    requires serves { Serving shared (known pass.old) (counts_of pass.old) }
    requires keeps { Keeps (known pass.old) book.old }
    requires place { HasPlace (known pass.old) }
    requires spare { 1 ≤ book.old.rows.spare }
    requires may { MayCount (shares pass.old) }
    requires is { Is cell.kind (view_of shared) cell.edge }
    requires adds { AddsRow (known pass.old) (view_of shared) (call_of request) adding cell }
    ensures own { IsPassOf guard.now pass.new × (in_hand pass.new ≡ []) }
    ensures keeps { Keeps (known pass.new) book.new }
    ensures told { Told (known pass.old) (known pass.new) (call_of request.entry) (added_as (view_of shared) adding result.value cell) result.place }
    ensures stands { shares pass.new ≡ shares pass.old }
    ensures settles { Settles (counts_of pass.old) (counts_of pass.new) }
    ensures notes { Notes (known pass.old) (known pass.new) shared }
    ensures spare { book.new.rows.spare + 1 ≡ book.old.rows.spare }
{
    let Cell { kind, edge } = cell;
    let generation = raise::<Brand>(guard, pass, &shared, Cell { kind, edge });
    let name = book.rows.add(kind, edge);
    let answer = Answer::Added(adding, name, Cell { kind, edge }, generation);
    let place = finish(guard, pass, book, shared, request, answer);
    Placed { place, value: name }
}

/// The node table was full: so many slots are in use, and so many more were needed.
pub fn be_full(
    guard: &Guard<Shared>,
    pass: &mut Pass<Shared>,
    book: &mut Book,
    shared: Shared,
    request: Request<'_>,
    in_use: u32,
    need: u32,
) -> Full
    requires hold { IsHolding guard.now pass.old }
    requires serves { Serving shared (known pass.old) (counts_of pass.old) }
    requires keeps { Keeps (known pass.old) book.old }
    requires place { HasPlace (known pass.old) }
    requires fits { IsTrue (may_be_full (call_of request)) }
    requires outcome { MayBeFull (known pass.old) (call_of request) }
    requires numbers { TellsFull (known pass.old).slots (call_of request) in_use need }
    ensures own { IsPassOf guard.now pass.new × (in_hand pass.new ≡ []) }
    ensures keeps { Keeps (known pass.new) book.new }
    ensures told { IsRefused (known pass.old) (known pass.new) (call_of request.entry) (Refusal.Full result) }
    ensures stands { shares pass.new ≡ shares pass.old }
    ensures settles { Settles (counts_of pass.old) (counts_of pass.new) }
    ensures numbers { (result.in_use ≡ in_use) × (result.need ≡ need) }
    ensures notes { Notes (known pass.old) (known pass.new) shared }
    ensures rows { book.new.rows ≡ book.old.rows }
{
    let limit = shared.store.limit();
    let answer = Answer::Full(in_use, need);
    let place = finish(guard, pass, book, shared, request, answer);
    Full {
        place,
        in_use,
        limit,
        need,
    }
}

/// The call made nothing, and is told why.
pub fn tell_unmade(
    guard: &Guard<Shared>,
    pass: &mut Pass<Shared>,
    book: &mut Book,
    shared: Shared,
    request: Request<'_>,
    why: Unmade,
) -> u64
    requires hold { IsHolding guard.now pass.old }
    requires serves { Serving shared (known pass.old) (counts_of pass.old) }
    requires keeps { Keeps (known pass.old) book.old }
    requires place { HasPlace (known pass.old) }
    requires outcome { Gives (known pass.old) (call_of request) (outcome_unmade why) }
    ensures own { IsPassOf guard.now pass.new × (in_hand pass.new ≡ []) }
    ensures keeps { Keeps (known pass.new) book.new }
    ensures told { Told (known pass.old) (known pass.new) (call_of request.entry) (reply_unmade why) result }
    ensures stands { shares pass.new ≡ shares pass.old }
    ensures settles { Settles (counts_of pass.old) (counts_of pass.new) }
    ensures notes { Notes (known pass.old) (known pass.new) shared }
    ensures rows { book.new.rows ≡ book.old.rows }
{
    finish(guard, pass, book, shared, request, Answer::Unmade(why))
}

/// What an operation leaves that made an edge, made nothing, or was refused.
pub fn settle(
    guard: &Guard<Shared>,
    pass: &mut Pass<Shared>,
    book: &mut Book,
    shared: Shared,
    request: Request<'_>,
    adding: Adding,
    kind: Kind,
    made: Result<Result<Edge, Unmade>, Stop>,
) -> Result<Placed<Result<Name, Unmade>>, Refusal>
    requires hold { IsHolding guard.now pass.old }
    requires serves { Serving shared (known pass.old) (counts_of pass.old) }
    requires keeps { Keeps (known pass.old) book.old }
    requires place { HasPlace (known pass.old) }
    requires spare { 1 ≤ book.old.rows.spare }
    requires may { MayCount (shares pass.old) }
    requires ok { IfOk made (λ told. MatchResult told (λ edge. Is kind (view_of shared) edge × AddsRow (known pass.old) (view_of shared) (call_of request) adding (record { kind = kind; edge = edge })) (λ why. Gives (known pass.old) (call_of request) (outcome_unmade why))) }
    requires one { (slots : ℕ) → TellsFull slots (call_of request) slots 1 }
    requires full { IsErrOf made Stop.Full → IsTrue (may_be_full (call_of request)) × MayBeFull (known pass.old) (call_of request) × ((f : Function) × (due shared ≡ Some f)) }
    ensures own { IsPassOf guard.now pass.new × (in_hand pass.new ≡ []) }
    ensures keeps { Keeps (known pass.new) book.new }
    ensures told { MatchResult result (λ placed. MatchResult placed.value (λ name. IsAdded (known pass.old) (known pass.new) (call_of request.entry) adding name placed.place) (λ why. Told (known pass.old) (known pass.new) (call_of request.entry) (reply_unmade why) placed.place)) (IsRefused (known pass.old) (known pass.new) (call_of request.entry)) }
    ensures why { IfOk result (λ placed. MatchResult placed.value (λ name. Unit {0}) (λ why. made ≡ Ok (Err why))) }
    ensures notes { Notes (known pass.old) (known pass.new) shared }
    ensures spare { MatchResult result (λ placed. MatchResult placed.value (λ name. book.new.rows.spare + 1 ≡ book.old.rows.spare) (λ why. book.new.rows.spare ≡ book.old.rows.spare)) (λ refusal. book.new.rows.spare ≡ book.old.rows.spare) }
    ensures cause { IsCausedBy made result }
    ensures stands { shares pass.new ≡ shares pass.old }
    ensures settles { Settles (counts_of pass.old) (counts_of pass.new) }
{
    match made {
        Ok(Ok(edge)) => {
            let cell = Cell { kind, edge };
            let added = add_row(guard, pass, book, shared, request, adding, cell);
            Ok(Placed {
                place: added.place,
                value: Ok(added.value),
            })
        }
        Ok(Err(why)) => {
            let place = tell_unmade(guard, pass, book, shared, request, why);
            Ok(Placed {
                place,
                value: Err(why),
            })
        }
        Err(Stop::Full) => {
            let in_use = shared.store.in_use();
            let full = be_full(guard, pass, book, shared, request, in_use, 1);
            Err(Refusal::Full(full))
        }
        Err(Stop::Memory) => {
            put_back(guard, pass, shared);
            Err(Refusal::Memory)
        }
    }
}
