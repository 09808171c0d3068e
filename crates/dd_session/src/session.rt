//! A session, its seat, and the edges of its rows.

ghost use Rattle.std.specs.Prelude.{◌≡◌, map, IfOk, IsSome, Some, All};
ghost use Rattle.edge_bits.specs.declared.edges.Kind.{Kind as KindOf};
ghost use Rattle.edge_bits.specs.declared.edges.Kind.TheVariants as kinds;
ghost use Rattle.seat_guard.specs.declared.view.Draws.{Draws};
ghost use Rattle.dd_session.specs.Sessions.{IsLive, IsLiveAs, edge_in, with_edge};
ghost use Rattle.seat_guard.specs.Passes.{known};
ghost use Rattle.dd_session.specs.Turns.{IsEdgeOf, IsReady, IsSeatOf, Keeps, seen_of};

use crate::book::Book;
use crate::drawing::edge_at;
use edge_bits::{Edge, Memory};
use handle_count::H;
use seat_guard::seat::Pass;
use shared_store::Shared;
use std::alloc::Global;
use std::marker::Model;

/// A session of a manager: the rows that it holds, under names that are never given twice, and its calls so far. It may go to
/// another thread than the manager and the other sessions.
#[derive(Drop)]
pub struct Session {
    /// Its seat, which a share or a hold owns while a call has one.
    pub(crate) seat: Option<Pass<Shared>>,
    pub(crate) book: Book,
}

impl Model for Session {
    ghost use Rattle.dd_session.specs.Managing.{Ready, Seen, seen_in};

    ghost Value = { Seen };

    ghost view = { λ s. seen_in s.seat s.book };

    ghost invariant = { λ s. Ready s.seat s.book };
}

/// Takes the seat for a call.
pub fn take_seat(seat: &mut Option<Pass<Shared>>) -> Pass<Shared>
    requires { IsSome seat.old }
    ensures { seat.old ≡ Some result }
{
    seat.take().unwrap()
}

/// The seat, which is there between two calls.
fn seat_of(seat: &Option<Pass<Shared>>) -> &Pass<Shared>
    requires { IsSome seat.now }
    ensures { seat.now ≡ Some result.now }
{
    seat.as_ref().unwrap()
}

/// The seat and the rows of a session, between two calls.
pub fn parted(session: Session) -> (Pass<Shared>, Book)
    ensures seen { seen_of result.0 result.1 ≡ session }
    ensures ready { IsReady result.0 × Keeps (known result.0) result.1 }
{
    let Session { seat, book } = session;
    match seat {
        Some(pass) => (pass, book),
        None => unreachable!(),
    }
}

impl Session {
    /// The edge of a row.
    pub(crate) fn edge(&self, h: H) -> Edge
        requires { IsLive self.now h }
        ensures edge { (k : KindOf) → IsLiveAs k self.now h → (d : Draws) → IsSeatOf self.now d → IsEdgeOf k d h result }
        ensures own { result ≡ edge_in self.now.rows h }
    {
        edge_at(seat_of(&self.seat), &self.book, h)
    }

    /// The variables of some pairs with the edges of their rows.
    pub(crate) fn edges(
        &self,
        alloc: Global,
        pairs: &[(u32, H)],
    ) -> Result<Vec<(u32, Edge)>, Memory>
        requires { All (λ pair. IsLiveAs kinds.Bdd self.now pair.1) pairs.now }
        ensures { IfOk result (λ edges. edges.items ≡ map (with_edge self.now.rows) pairs.now) }
    {
        let mut edges = Vec::new(alloc);
        for pair in pairs {
            edges.push((pair.0, self.edge(pair.1)))?;
        }
        Ok(edges)
    }
}
