//! The end of the sessions: their seats come back.

ghost use Rattle.std.specs.Prelude.{◌≡◌, [], map, true, All};
ghost use Rattle.seat_guard.specs.Passes.{IsPassOf, in_hand, known};
ghost use Rattle.dd_session.specs.Managing.{IsClosing, Seen, gone_as};
ghost use Rattle.dd_session.specs.Turns.{managed_by};

use crate::session::{Session, parted};
use seat_guard::seat::{Guard, Pass};
use shared_store::Shared;

/// Takes all seats in.
pub fn join_all(guard: &Guard<Shared>, closing: &mut Pass<Shared>, sessions: Vec<Session>)
    requires closing { IsPassOf guard.now closing.old × (in_hand closing.old ≡ []) × IsClosing (known closing.old) }
    requires own { All (λ (s : Seen). s.manager ≡ managed_by guard.now.table.shared.table_id (known closing.old)) sessions.items }
    ensures own { IsPassOf guard.now closing.new × (in_hand closing.new ≡ []) × ((known closing.new).closing ≡ true) }
    ensures gone { (known closing.new).gone ≡ map gone_as sessions.items }
    ensures kept { ((known closing.new).given ≡ (known closing.old).given) × ((known closing.new).vars ≡ (known closing.old).vars) × ((known closing.new).elements ≡ (known closing.old).elements) }
{
    for session in sessions {
        let (pass, _book) = parted(session);
        guard.join(closing, pass);
    }
}
