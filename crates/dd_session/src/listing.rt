//! The listing of rows, which draws no place.

ghost use Rattle.std.specs.Prelude.{◌≡◌, ◌<◌, [], ◌∷◌, None, true, map, All, IfOk, MatchResult};
ghost use Rattle.edge_bits.specs.declared.edges.Kind.TheVariants as kinds;
ghost use Rattle.function_laws.specs.declared.history.Entry.{Entry};
ghost use Rattle.seat_guard.specs.declared.view.Leaving.{Leaving};
ghost use Rattle.seat_guard.specs.Passes.{IsPassOf, counts_of, in_hand, known, shares};
ghost use Rattle.seat_guard.specs.Views.{known_as, letting_go, noting};
ghost use Rattle.shared_store.specs.Sharing.{Serving, orders};
ghost use Rattle.shared_store.specs.Storing.{IsLeaving};
ghost use Rattle.dd_session.specs.Listings.{IsListed, ListsRows};
ghost use Rattle.dd_session.specs.Sessions.{IsAsBefore, IsNamed, edge_in};
ghost use Rattle.dd_session.specs.Turns.{IsCalm, Keeps, Tied, seen_of};
ghost use Rattle.dd_session.specs.Works.{StoresNothing};

use crate::book::Book;
use crate::drawing::edge_at;
use diagram_dumps::Listing;
use edge_bits::{Edge, Memory};
use function_laws::Name;
use seat_guard::seat::{Guard, Pass};
use shared_store::{Shared, put_back};
use std::alloc::Global;
use std::sync::Wait;

/// The edges of some rows.
fn edges_of(
    alloc: Global,
    pass: &Pass<Shared>,
    book: &Book,
    rows: &[Name],
) -> Result<Vec<Edge>, Memory>
    requires tied { Tied (known pass.now) book.now.rows }
    requires live { All (IsNamed kinds.Bdd (known pass.now).rows) rows.now }
    ensures { IfOk result (λ edges. edges.items ≡ map (edge_in (known pass.now).rows) rows.now) }
{
    let mut edges = Vec::new(alloc);
    for row in rows {
        edges.push(edge_at(pass, book, *row))?;
    }
    Ok(edges)
}

/// The listing of some rows, out of a store that keeps them.
fn listing_of(
    alloc: Global,
    pass: &Pass<Shared>,
    book: &Book,
    shared: &Shared,
    rows: &[Name],
) -> Result<Listing, Memory>
    requires tied { Tied (known pass.now) book.now.rows }
    requires live { All (IsNamed kinds.Bdd (known pass.now).rows) rows.now }
    requires serves { Serving shared.now (known pass.now) (counts_of pass.now) }
    ensures { IfOk result (λ listing. (listing.order ≡ (known pass.now).variable_order) × ListsRows (known pass.now).vars (known_as (known pass.now)) rows.now listing) }
{
    shared.store.tell_sound();
    let edges = edges_of(alloc, pass, book, rows)?;
    diagram_lists::list(alloc, shared.store.get(), &edges)
}

/// Notes the orders, and gives the turn back.
fn note(guard: &Guard<Shared>, pass: &mut Pass<Shared>, shared: Shared) -> u64
    requires own { IsPassOf guard.now pass.old × ((known pass.old).live ≡ true) × ((known pass.old).holds ≡ true) × (in_hand pass.old ≡ (0, None) ∷ []) }
    requires serves { Serving shared (known pass.old) (counts_of pass.old) }
    ensures own { IsPassOf guard.now pass.new × (in_hand pass.new ≡ []) }
    ensures gave { (x : Leaving) × (known pass.new ≡ letting_go (noting (known pass.old) result) x) × IsLeaving (known pass.old) shared x }
    ensures stands { (shares pass.new ≡ shares pass.old) × (counts_of pass.new ≡ counts_of pass.old) }
    ensures later { All (λ (e : Entry). e.place < result) (known pass.old).entries }
{
    let place = guard.look(pass);
    put_back(guard, pass, shared);
    place
}

/// The listing of some rows, under the order that the calls below a place leave. Want of memory leaves the session as it was.
pub fn list<R: Wait>(
    rt: &R,
    alloc: Global,
    guard: &Guard<Shared>,
    pass: &mut Pass<Shared>,
    book: &Book,
    rows: &[Name],
) -> Result<Listing, Memory>
    requires idle { IsCalm guard.now pass.old }
    requires keeps { Keeps (known pass.old) book.now }
    requires live { All (IsNamed kinds.Bdd (known pass.old).rows) rows.now }
    ensures idle { IsCalm guard.now pass.new }
    ensures keeps { Keeps (known pass.new) book.now }
    ensures told { MatchResult result (IsListed (seen_of pass.old book.now) (seen_of pass.new book.now) rows.now) (λ _. IsAsBefore (seen_of pass.old book.now) (seen_of pass.new book.now)) }
    ensures stored { StoresNothing (seen_of pass.old book.now) (seen_of pass.new book.now) }
    ensures stands { shares pass.new ≡ shares pass.old }
{
    let shared = guard.take(rt, pass);
    match listing_of(alloc, pass, book, &shared, rows) {
        Ok(listing) => {
            note(guard, pass, shared);
            Ok(listing)
        }
        Err(Memory) => {
            put_back(guard, pass, shared);
            Err(Memory)
        }
    }
}
