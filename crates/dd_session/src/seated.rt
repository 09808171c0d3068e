//! The calls of a session on the board, and the sweep, over its seat and its rows.

ghost use Rattle.std.specs.Prelude.{◌≡◌, ◌+◌, ◌<◌, ◌≤◌, [], length, true, Some};
ghost use Rattle.edge_bits.specs.declared.edges.Kind.{Kind as KindOf};
ghost use Rattle.function_laws.specs.declared.history.Call.TheVariants as calls;
ghost use Rattle.function_laws.specs.declared.history.Reply.TheVariants as replies;
ghost use Rattle.seat_guard.specs.declared.view.Hold.TheVariants.{Holding};
ghost use Rattle.seat_guard.specs.Passes.{IsPassOf, counts_of, known, shares};
ghost use Rattle.seat_guard.specs.Recounts.{OnlyCounts};
ghost use Rattle.shared_store.specs.declared.shared.Cell.{Cell as CellOf};
ghost use Rattle.dd_session.specs.Managing.{is_posted};
ghost use Rattle.dd_session.specs.Sessions.{Called, IsNamed};
ghost use Rattle.dd_session.specs.Turns.{HasPlace, IsCalm, IsStill, Keeps, MayCount, OwesCell, seen_of};
ghost use Rattle.dd_session.specs.Works.{IsSweepAsked, StoresNothing};

use crate::answers::{Fetched, Placed};
use crate::book::Book;
use crate::drawing::{edge_at, finish, kind_at};
use crate::fetching::{choose, fetched};
use crate::request::{Adding, Answer, Request};
use crate::settling::{add_row, raise};
use dead_sweep::Swept;
use function_laws::Name;
use seat_guard::seat::{Guard, Pass};
use shared_store::{Cell, Shared, read_counts};
use std::marker::Brand;
use std::sync::Wait;

/// Counts down the slot of what stood in a cell, which is owed.
fn pay(guard: &Guard<Shared>, pass: &mut Pass<Shared>, gone: Option<Cell>)
    requires own { IsPassOf guard.now pass.old × ((known pass.old).live ≡ true) }
    requires within { (cell : CellOf) → gone ≡ Some cell → cell.edge.index < (known pass.old).slots }
    requires owed { OwesCell gone (counts_of pass.old).owed }
    ensures own { OnlyCounts guard.now pass.old pass.new }
    ensures paid { counts_of pass.new ≡ record (counts_of pass.old) { owed = [] } }
{
    if let Some(cell) = gone {
        guard.count_down(pass, cell.edge.index());
    }
}

/// Puts the function of a row into a cell of the board, in place of what was there.
pub fn post<R: Wait>(
    rt: &R,
    guard: &Guard<Shared>,
    pass: &mut Pass<Shared>,
    book: &mut Book,
    cell: u8,
    h: Name,
) -> Placed<()>
    requires idle { IsCalm guard.now pass.old }
    requires keeps { Keeps (known pass.old) book.old }
    requires place { HasPlace (known pass.old) }
    requires may { MayCount (shares pass.old) }
    requires live { (k : KindOf) × IsNamed k (known pass.old).rows h }
    ensures idle { IsCalm guard.now pass.new }
    ensures stands { shares pass.new ≡ shares pass.old }
    ensures keeps { Keeps (known pass.new) book.new }
    ensures told { Called (seen_of pass.old book.old) (seen_of pass.new book.new) (calls.Post cell h) replies.Done result.place }
    ensures stored { StoresNothing (seen_of pass.old book.old) (seen_of pass.new book.new) }
    ensures rows { book.new.rows ≡ book.old.rows }
{
    let kind = kind_at(pass, book, h);
    let edge = edge_at(pass, book, h);
    let mut shared = guard.take(rt, pass);
    let old = shared.cell(cell);
    raise::<Brand>(guard, pass, &shared, Cell { kind, edge });
    shared.set_cell(cell, Cell { kind, edge });
    let number = u32::from(cell);
    let place = finish(
        guard,
        pass,
        book,
        shared,
        Request::Post(number, h),
        Answer::Posted(number, Cell { kind, edge }),
    );
    pay(guard, pass, old);
    Placed { place, value: () }
}

/// A new row with the function of a cell, and Posted, where that has the kind of another row; else with the other's, and
/// Empty. There is room for it.
pub fn fetch<R: Wait>(
    rt: &R,
    guard: &Guard<Shared>,
    pass: &mut Pass<Shared>,
    book: &mut Book,
    cell: u8,
    other: Name,
) -> Placed<(Name, Fetched)>
    requires idle { IsCalm guard.now pass.old }
    requires keeps { Keeps (known pass.old) book.old }
    requires place { HasPlace (known pass.old) }
    requires may { MayCount (shares pass.old) }
    requires spare { 1 ≤ book.old.rows.spare }
    requires live { (k : KindOf) × IsNamed k (known pass.old).rows other }
    ensures idle { IsCalm guard.now pass.new }
    ensures stands { shares pass.new ≡ shares pass.old }
    ensures keeps { Keeps (known pass.new) book.new }
    ensures told { Called (seen_of pass.old book.old) (seen_of pass.new book.new) (calls.Fetch cell other) (replies.Fetched result.value.0 (is_posted result.value.1)) result.place }
    ensures stored { StoresNothing (seen_of pass.old book.old) (seen_of pass.new book.new) }
    ensures spare { book.new.rows.spare + 1 ≡ book.old.rows.spare }
{
    let own = Cell {
        kind: kind_at(pass, book, other),
        edge: edge_at(pass, book, other),
    };
    let shared = guard.take(rt, pass);
    let (chosen, posted) = choose(shared.cell(cell), own);
    let request = Request::Fetch(u32::from(cell), other);
    let made = add_row(
        guard,
        pass,
        book,
        shared,
        request,
        Adding::Taken(posted),
        chosen,
    );
    Placed {
        place: made.place,
        value: (made.value, fetched(posted)),
    }
}

/// Frees the slots that nothing reaches.
pub fn sweep<R: Wait>(
    rt: &R,
    guard: &Guard<Shared>,
    pass: &mut Pass<Shared>,
    book: &mut Book,
) -> Placed<Swept>
    requires idle { IsCalm guard.now pass.old }
    requires keeps { Keeps (known pass.old) book.old }
    requires place { HasPlace (known pass.old) }
    requires hold { (shares pass.old).order ≡ Holding }
    ensures idle { IsStill guard.now pass.new }
    ensures stands { shares pass.new ≡ shares pass.old }
    ensures keeps { Keeps (known pass.new) book.new }
    ensures told { Called (seen_of pass.old book.old) (seen_of pass.new book.new) calls.Sweep replies.Done result.place }
    ensures swept { IsSweepAsked (seen_of pass.old book.old) (seen_of pass.new book.new) result.value }
    ensures stored { StoresNothing (seen_of pass.old book.old) (seen_of pass.new book.new) }
    ensures rows { book.new.rows ≡ book.old.rows }
{
    let mut shared = guard.take(rt, pass);
    read_counts(guard, pass, &mut shared);
    shared.store.tell_sound();
    let (shared, swept) = shared.sweep();
    let place = finish(guard, pass, book, shared, Request::Sweep, Answer::Done);
    Placed {
        place,
        value: swept,
    }
}
