//! The calls of a session under a share or a hold, which owns its seat meanwhile: an operation and a comparison under an operation share, a
//! walk under a walk share, a listing under the order, and what sweeps or reorders under the full hold. A post and a fetch count a slot up
//! under an operation share. What waits for a share or a hold has not the turn.

ghost use Rattle.std.specs.Prelude.{◌≡◌, ◌+◌, ◌<◌, ◌≤◌, All, length, MatchResult};
ghost use Rattle.edge_bits.specs.declared.edges.Kind.{Kind as KindOf};
ghost use Rattle.edge_bits.specs.declared.edges.Kind.TheVariants as kinds;
ghost use Rattle.function_laws.specs.Makings.{needs_nodes};
ghost use Rattle.function_laws.specs.declared.history.Call.TheVariants as calls;
ghost use Rattle.function_laws.specs.declared.history.Reply.TheVariants as replies;
ghost use Rattle.group_sift.specs.Turns.{last_end};
ghost use Rattle.operator_calls.specs.Making.{unmade_as};
ghost use Rattle.operator_calls.specs.Taking.{of_lent};
ghost use Rattle.seat_guard.specs.Passes.{known, shares};
ghost use Rattle.seat_guard.specs.Phase.{HasNoShare};
ghost use Rattle.dd_session.specs.Listings.{IsListed};
ghost use Rattle.dd_session.specs.Managing.{is_posted};
ghost use Rattle.dd_session.specs.MadeRows.{Awaits, HasTaken, MakesOrTells, by_edges};
ghost use Rattle.dd_session.specs.Reorderings.{SwapsLevels};
ghost use Rattle.dd_session.specs.Sessions.{Called, IsAsBefore, IsNamed};
ghost use Rattle.dd_session.specs.Siftings.{SiftsLevels};
ghost use Rattle.dd_session.specs.Turns.{HasPlace, IsCalm, Keeps, levels_in, seen_of};
ghost use Rattle.dd_session.specs.Walking.{bits_of};
ghost use Rattle.dd_session.specs.Works.{IsSweepAsked, StoresNothing};

use crate::answers::{Fetched, Full, Placed, Refusal};
use crate::book::Book;
use crate::making::make_once;
use crate::reordering::swap_at;
use crate::sifting::sift_at;
use crate::{asking, listing, seated};
use dead_sweep::Swept;
use diagram_dumps::Listing;
use edge_bits::{Edge, Kind, Memory};
use function_laws::{Making, Name, Order};
use group_sift::{Blocks, Sifted};
use operator_calls::Unmade;
use seat_guard::seat::{Guard, Pass};
use shared_store::Shared;
use std::alloc::Global;
use std::sync::Wait;

/// A function of rows by their edges: a try under an operation share, and where no slot was free one under the full hold.
pub fn make<R: Wait>(
    rt: &R,
    guard: &Guard<Shared>,
    pass: Pass<Shared>,
    book: &mut Book,
    making: Making<Name, &[u32], &[(u32, Name)]>,
    edges: &Making<Edge, &[u32], &[(u32, Edge)]>,
) -> (Pass<Shared>, Result<Placed<Result<Name, Unmade>>, Refusal>)
    requires idle { IsCalm guard.now pass }
    requires unshared { HasNoShare (shares pass) }
    requires keeps { Keeps (known pass) book.old }
    requires place { HasPlace (known pass) }
    requires can { HasTaken (seen_of pass book.old) (of_lent making) }
    requires same { of_lent edges.now ≡ by_edges (known pass).rows (of_lent making) }
    requires needs { needs_nodes (of_lent edges.now) ≡ needs_nodes (of_lent making) }
    requires unmade { unmade_as (of_lent edges.now) ≡ unmade_as (of_lent making) }
    ensures idle { IsCalm guard.now result.0 }
    ensures unshared { HasNoShare (shares result.0) }
    ensures keeps { Keeps (known result.0) book.new }
    ensures made { MakesOrTells (seen_of pass book.old) (seen_of result.0 book.new) (of_lent making.entry) result.1 }
{
    let mut share = guard.op_wait(rt, pass);
    let made = make_once(rt, guard, &mut share.pass, book, making, edges, false);
    let pass = guard.op_out(share);
    match made {
        Some(made) => (pass, made),
        None => make_last(rt, guard, pass, book, making, edges),
    }
}

/// The last try, under the full hold.
fn make_last<R: Wait>(
    rt: &R,
    guard: &Guard<Shared>,
    pass: Pass<Shared>,
    book: &mut Book,
    making: Making<Name, &[u32], &[(u32, Name)]>,
    edges: &Making<Edge, &[u32], &[(u32, Edge)]>,
) -> (Pass<Shared>, Result<Placed<Result<Name, Unmade>>, Refusal>)
    requires idle { IsCalm guard.now pass }
    requires unshared { HasNoShare (shares pass) }
    requires keeps { Keeps (known pass) book.old }
    requires place { HasPlace (known pass) }
    requires can { HasTaken (seen_of pass book.old) (of_lent making) }
    requires same { of_lent edges.now ≡ by_edges (known pass).rows (of_lent making) }
    requires needs { needs_nodes (of_lent edges.now) ≡ needs_nodes (of_lent making) }
    requires unmade { unmade_as (of_lent edges.now) ≡ unmade_as (of_lent making) }
    ensures idle { IsCalm guard.now result.0 }
    ensures unshared { HasNoShare (shares result.0) }
    ensures keeps { Keeps (known result.0) book.new }
    ensures made { MakesOrTells (seen_of pass book.old) (seen_of result.0 book.new) (of_lent making.entry) result.1 }
{
    let hold = guard.order_wait(rt, pass);
    let mut hold = guard.full_wait(rt, hold);
    let Some(made) = make_once(rt, guard, &mut hold.pass, book, making, edges, true) else {
        unreachable!()
    };
    let hold = guard.full_out(hold);
    (guard.order_out(hold), made)
}

/// Whether the second of two rows is true wherever the first is.
pub fn leq<R: Wait>(
    rt: &R,
    guard: &Guard<Shared>,
    pass: Pass<Shared>,
    book: &mut Book,
    f: Name,
    g: Name,
) -> (Pass<Shared>, Result<Placed<bool>, Memory>)
    requires idle { IsCalm guard.now pass }
    requires unshared { HasNoShare (shares pass) }
    requires keeps { Keeps (known pass) book.old }
    requires place { HasPlace (known pass) }
    requires first { IsNamed kinds.Bdd (known pass).rows f }
    requires second { IsNamed kinds.Bdd (known pass).rows g }
    ensures idle { IsCalm guard.now result.0 }
    ensures unshared { HasNoShare (shares result.0) }
    ensures keeps { Keeps (known result.0) book.new }
    ensures told { MatchResult result.1 (λ placed. Called (seen_of pass book.old) (seen_of result.0 book.new) (calls.Leq f g) (replies.Truth placed.value) placed.place) (λ _. IsAsBefore (seen_of pass book.old) (seen_of result.0 book.new)) }
    ensures stored { StoresNothing (seen_of pass book.old) (seen_of result.0 book.new) }
    ensures rows { book.new.rows ≡ book.old.rows }
{
    let mut share = guard.op_wait(rt, pass);
    let told = asking::leq(rt, guard, &mut share.pass, book, f, g);
    (guard.op_out(share), told)
}

/// The value of a row at these bits, of which so many are read.
pub fn eval<R: Wait>(
    rt: &R,
    guard: &Guard<Shared>,
    pass: Pass<Shared>,
    book: &mut Book,
    kind: Kind,
    f: Name,
    bits: &[bool],
    count: usize,
) -> (Pass<Shared>, Placed<i64>)
    requires idle { IsCalm guard.now pass }
    requires unshared { HasNoShare (shares pass) }
    requires keeps { Keeps (known pass) book.old }
    requires place { HasPlace (known pass) }
    requires live { IsNamed kind (known pass).rows f }
    requires count { count ≡ bits_of kind (seen_of pass book.old).manager }
    requires bits { count ≤ length bits.now }
    ensures idle { IsCalm guard.now result.0 }
    ensures unshared { HasNoShare (shares result.0) }
    ensures keeps { Keeps (known result.0) book.new }
    ensures told { Called (seen_of pass book.old) (seen_of result.0 book.new) (calls.Eval f bits.now) (replies.Value result.1.value) result.1.place }
    ensures stored { StoresNothing (seen_of pass book.old) (seen_of result.0 book.new) }
    ensures rows { book.new.rows ≡ book.old.rows }
{
    let mut share = guard.walk_wait(rt, pass);
    let placed = asking::eval(rt, guard, &mut share.pass, book, kind, f, bits, count);
    (guard.walk_out(share), placed)
}

/// Puts the function of a row into a cell of the board, in place of what was there.
pub fn post<R: Wait>(
    rt: &R,
    guard: &Guard<Shared>,
    pass: Pass<Shared>,
    book: &mut Book,
    cell: u8,
    h: Name,
) -> (Pass<Shared>, Placed<()>)
    requires idle { IsCalm guard.now pass }
    requires unshared { HasNoShare (shares pass) }
    requires keeps { Keeps (known pass) book.old }
    requires place { HasPlace (known pass) }
    requires live { (k : KindOf) × IsNamed k (known pass).rows h }
    ensures idle { IsCalm guard.now result.0 }
    ensures unshared { HasNoShare (shares result.0) }
    ensures keeps { Keeps (known result.0) book.new }
    ensures told { Called (seen_of pass book.old) (seen_of result.0 book.new) (calls.Post cell h) replies.Done result.1.place }
    ensures stored { StoresNothing (seen_of pass book.old) (seen_of result.0 book.new) }
    ensures rows { book.new.rows ≡ book.old.rows }
{
    let mut share = guard.op_wait(rt, pass);
    let placed = seated::post(rt, guard, &mut share.pass, book, cell, h);
    (guard.op_out(share), placed)
}

/// A new row with the function of a cell, and Posted, where that has the kind of another row; else with the other's, and
/// Empty. There is room for it.
pub fn fetch<R: Wait>(
    rt: &R,
    guard: &Guard<Shared>,
    pass: Pass<Shared>,
    book: &mut Book,
    cell: u8,
    other: Name,
) -> (Pass<Shared>, Placed<(Name, Fetched)>)
    requires idle { IsCalm guard.now pass }
    requires unshared { HasNoShare (shares pass) }
    requires keeps { Keeps (known pass) book.old }
    requires place { HasPlace (known pass) }
    requires spare { 1 ≤ book.old.rows.spare }
    requires live { (k : KindOf) × IsNamed k (known pass).rows other }
    ensures idle { IsCalm guard.now result.0 }
    ensures unshared { HasNoShare (shares result.0) }
    ensures keeps { Keeps (known result.0) book.new }
    ensures told { Called (seen_of pass book.old) (seen_of result.0 book.new) (calls.Fetch cell other) (replies.Fetched result.1.value.0 (is_posted result.1.value.1)) result.1.place }
    ensures stored { StoresNothing (seen_of pass book.old) (seen_of result.0 book.new) }
    ensures spare { book.new.rows.spare + 1 ≡ book.old.rows.spare }
{
    let mut share = guard.op_wait(rt, pass);
    let placed = seated::fetch(rt, guard, &mut share.pass, book, cell, other);
    (guard.op_out(share), placed)
}

/// The nodes of some rows.
pub fn list<R: Wait>(
    rt: &R,
    alloc: Global,
    guard: &Guard<Shared>,
    pass: Pass<Shared>,
    book: &Book,
    rows: &[Name],
) -> (Pass<Shared>, Result<Listing, Memory>)
    requires idle { IsCalm guard.now pass }
    requires unshared { HasNoShare (shares pass) }
    requires keeps { Keeps (known pass) book.now }
    requires live { All (IsNamed kinds.Bdd (known pass).rows) rows.now }
    ensures idle { IsCalm guard.now result.0 }
    ensures unshared { HasNoShare (shares result.0) }
    ensures keeps { Keeps (known result.0) book.now }
    ensures told { MatchResult result.1 (IsListed (seen_of pass book.now) (seen_of result.0 book.now) rows.now) (λ _. IsAsBefore (seen_of pass book.now) (seen_of result.0 book.now)) }
    ensures stored { StoresNothing (seen_of pass book.now) (seen_of result.0 book.now) }
{
    let mut hold = guard.order_wait(rt, pass);
    let listing = listing::list(rt, alloc, guard, &mut hold.pass, book, rows);
    (guard.order_out(hold), listing)
}

/// Frees the slots that nothing reaches.
pub fn sweep<R: Wait>(
    rt: &R,
    guard: &Guard<Shared>,
    pass: Pass<Shared>,
    book: &mut Book,
) -> (Pass<Shared>, Placed<Swept>)
    requires idle { IsCalm guard.now pass }
    requires unshared { HasNoShare (shares pass) }
    requires keeps { Keeps (known pass) book.old }
    requires place { HasPlace (known pass) }
    ensures idle { IsCalm guard.now result.0 }
    ensures unshared { HasNoShare (shares result.0) }
    ensures keeps { Keeps (known result.0) book.new }
    ensures told { Called (seen_of pass book.old) (seen_of result.0 book.new) calls.Sweep replies.Done result.1.place }
    ensures swept { IsSweepAsked (seen_of pass book.old) (seen_of result.0 book.new) result.1.value }
    ensures stored { StoresNothing (seen_of pass book.old) (seen_of result.0 book.new) }
    ensures rows { book.new.rows ≡ book.old.rows }
{
    let hold = guard.order_wait(rt, pass);
    let mut hold = guard.full_wait(rt, hold);
    let placed = seated::sweep(rt, guard, &mut hold.pass, book);
    let hold = guard.full_out(hold);
    (guard.order_out(hold), placed)
}

/// A swap of a level of an order and the next.
pub fn swap<R: Wait>(
    rt: &R,
    guard: &Guard<Shared>,
    pass: Pass<Shared>,
    book: &mut Book,
    order: Order,
    level: u32,
) -> (Pass<Shared>, Result<Placed<()>, Full>)
    requires idle { IsCalm guard.now pass }
    requires unshared { HasNoShare (shares pass) }
    requires keeps { Keeps (known pass) book.old }
    requires place { HasPlace (known pass) }
    requires level { level + 1 < levels_in (known pass) order }
    ensures idle { IsCalm guard.now result.0 }
    ensures unshared { HasNoShare (shares result.0) }
    ensures keeps { Keeps (known result.0) book.new }
    ensures swaps { SwapsLevels order level (seen_of pass book.old) (seen_of result.0 book.new) result.1 }
{
    let hold = guard.order_wait(rt, pass);
    let mut hold = guard.full_wait(rt, hold);
    let done = swap_at(rt, guard, &mut hold.pass, book, order, level);
    let hold = guard.full_out(hold);
    (guard.order_out(hold), done)
}

/// A sift of one of both orders.
pub fn sift<R: Wait>(
    rt: &R,
    guard: &Guard<Shared>,
    pass: Pass<Shared>,
    book: &mut Book,
    order: Order,
    blocks: &mut Blocks,
) -> (Pass<Shared>, Placed<Sifted>)
    requires idle { IsCalm guard.now pass }
    requires unshared { HasNoShare (shares pass) }
    requires keeps { Keeps (known pass) book.old }
    requires place { HasPlace (known pass) }
    requires end { last_end 0 blocks.old ≡ levels_in (known pass) order }
    ensures idle { IsCalm guard.now result.0 }
    ensures unshared { HasNoShare (shares result.0) }
    ensures keeps { Keeps (known result.0) book.new }
    ensures sifted { SiftsLevels order blocks.old (seen_of pass book.old) (seen_of result.0 book.new) result.1 }
    ensures blocks { blocks.new ≡ blocks.old }
{
    let hold = guard.order_wait(rt, pass);
    let mut hold = guard.full_wait(rt, hold);
    let placed = sift_at(rt, guard, &mut hold.pass, book, order, blocks);
    let hold = guard.full_out(hold);
    (guard.order_out(hold), placed)
}
