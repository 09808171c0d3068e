//! The draw of a place, and what it leaves.

ghost use Rattle.std.specs.Prelude.{◌≡◌, ◌+◌, ◌<◌, ◌^◌, [], ◌∷◌, length, true, false, None, Some, All};
ghost use Rattle.edge_bits.specs.declared.edges.Kind.{Kind as KindOf};
ghost use Rattle.function_laws.specs.declared.history.Entry.{Entry};
ghost use Rattle.seat_guard.specs.Moves.{MayMove};
ghost use Rattle.seat_guard.specs.Passes.{IsPassOf, counts_of, in_hand, known, shares};
ghost use Rattle.seat_guard.specs.Tallies.{counts_after};
ghost use Rattle.seat_guard.specs.Views.{MayTell, told_of};
ghost use Rattle.shared_store.specs.Sharing.{Serving, view_of};
ghost use Rattle.dd_session.specs.Requests.{change_of, is_refusal, telling_of};
ghost use Rattle.dd_session.specs.Sessions.{IsNamed, edge_in, fulls_in};
ghost use Rattle.dd_session.specs.Turns.{Drew, IsEdgeOf, Tied};

use crate::book::Book;
use crate::request::{Answer, Request};
use edge_bits::{Edge, Kind};
use function_laws::Name;
use seat_guard::seat::{Guard, Pass};
use seat_guard::told::Told as Tells;
use shared_store::{Shared, put_back};
use std::marker::Brand;

/// The kind of a row.
pub fn kind_at(pass: &Pass<Shared>, book: &Book, name: Name) -> Kind
    requires tied { Tied (known pass.now) book.now.rows }
    requires live { (k : KindOf) × IsNamed k (known pass.now).rows name }
    ensures { (k : KindOf) → IsNamed k (known pass.now).rows name → result ≡ k }
{
    let _ = pass;
    book.rows.kind(name)
}

/// The edge of a row.
pub fn edge_at(pass: &Pass<Shared>, book: &Book, name: Name) -> Edge
    requires tied { Tied (known pass.now) book.now.rows }
    requires live { (k : KindOf) × IsNamed k (known pass.now).rows name }
    ensures edge { (k : KindOf) → IsNamed k (known pass.now).rows name → IsEdgeOf k (known pass.now) name result }
    ensures own { result ≡ edge_in (known pass.now).rows name }
{
    let _ = pass;
    book.rows.edge(name)
}

// Draws the place of the call, with what it was answered.
fn draw<E: Tells>(
    guard: &Guard<Shared>,
    pass: &mut Pass<Shared>,
    shared: &Shared,
    request: &Request<'_>,
    answer: &Answer,
) -> u64
    requires told { E.told ≡ telling_of (view_of shared.now) request.now answer.now }
    requires own { IsPassOf guard.now pass.old × ((known pass.old).live ≡ true) × ((known pass.old).holds ≡ true) }
    requires room { length (known pass.old).entries < 2 ^ 48 }
    requires step { MayTell (known pass.old) (telling_of (view_of shared.now) request.now answer.now) }
    requires moves { MayMove (known pass.old) (counts_of pass.old) (telling_of (view_of shared.now) request.now answer.now) }
    ensures own { IsPassOf guard.now pass.new × (in_hand pass.new ≡ in_hand pass.old) }
    ensures drew { known pass.new ≡ told_of (known pass.old) result (telling_of (view_of shared.now) request.now answer.now) }
    ensures moved { counts_of pass.new ≡ counts_after (change_of (view_of shared.now) answer.now) (known pass.old).cells (known pass.old).rows (counts_of pass.old) }
    ensures stands { shares pass.new ≡ shares pass.old }
    ensures later { All (λ (e : Entry). e.place < result) (known pass.old).entries }
{
    guard.place::<E>(pass)
}

/// Whether the answer is that the table was full, as 1 or 0.
fn fullness(answer: &Answer) -> u64
    ensures { result ≡ is_refusal answer.now }
{
    match answer {
        Answer::Full(_, _) => 1,
        _ => 0,
    }
}

/// Draws the place of the call, and gives the turn back.
pub fn finish(
    guard: &Guard<Shared>,
    pass: &mut Pass<Shared>,
    book: &mut Book,
    shared: Shared,
    request: Request<'_>,
    answer: Answer,
) -> u64
    requires own { IsPassOf guard.now pass.old × ((known pass.old).live ≡ true) × ((known pass.old).holds ≡ true) × (in_hand pass.old ≡ (0, None) ∷ []) }
    requires room { length (known pass.old).entries < 2 ^ 48 }
    requires calls { (book.old.calls ≡ length (known pass.old).entries) × (book.old.fulls ≡ fulls_in (known pass.old).entries) }
    requires step { MayTell (known pass.old) (telling_of (view_of shared) request answer) }
    requires moves { MayMove (known pass.old) (counts_of pass.old) (telling_of (view_of shared) request answer) }
    requires serves { Serving shared (told_of (known pass.old) 0 (telling_of (view_of shared) request answer)) (counts_after (change_of (view_of shared) answer) (known pass.old).cells (known pass.old).rows (counts_of pass.old)) }
    ensures own { IsPassOf guard.now pass.new × (in_hand pass.new ≡ []) }
    ensures drew { Drew (known pass.old) (known pass.new) shared (telling_of (view_of shared) request.entry answer) result }
    ensures moved { counts_of pass.new ≡ counts_after (change_of (view_of shared) answer) (known pass.old).cells (known pass.old).rows (counts_of pass.old) }
    ensures stands { shares pass.new ≡ shares pass.old }
    ensures calls { (book.new.calls ≡ length (known pass.new).entries) × (book.new.fulls ≡ fulls_in (known pass.new).entries) }
    ensures rows { book.new.rows ≡ book.old.rows }
{
    let full = fullness(&answer);
    let place = draw::<Brand>(guard, pass, &shared, &request, &answer);
    put_back(guard, pass, shared);
    book.calls += 1;
    book.fulls += full;
    place
}
