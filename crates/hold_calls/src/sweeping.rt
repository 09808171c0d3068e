//! The sweep.

ghost use Rattle.std.specs.Prelude.{◌≡◌, ℕ, List, false};
ghost use Rattle.dead_sweep.specs.Swept.{IsSwept};
ghost use Rattle.hold_store.specs.Held.{ZeroStays};
ghost use Rattle.hold_store.specs.Noted.{content_of};
ghost use Rattle.hold_calls.specs.Rests.{IsAtRest};

use dead_sweep::{Swept, sweep};
use hold_store::{HolderRoom, Holding, Holds};
use std::sync::Wait;
use step_store::Home;

/// Frees exactly the slots that are reached neither from a permanent slot nor from one whose count was found above 0.
pub fn swept<R: Wait, S: Holds, E: Home<S::Rest>>(
    rt: &R,
    seat: S,
    room: HolderRoom,
) -> (S, HolderRoom, Swept)
    requires own { S.holds seat }
    requires home { (S.table seat ≡ E.number) × (S.rest seat ≡ E.rest) }
    requires rest { IsAtRest (S.known seat) room }
    ensures own { S.holds result.0 }
    ensures home { (S.table result.0 ≡ E.number) × (S.rest result.0 ≡ E.rest) }
    ensures rest { IsAtRest (S.known result.0) result.1 }
    ensures swept { (marks left : List ℕ) × IsSwept ZeroStays (content_of (S.known seat) marks false) (content_of (S.known result.0) left false) result.2 }
{
    let mut held: Holding<'_, R, S, E> = Holding::new(rt, seat, room);
    let swept = sweep(&mut held);
    let (seat, room) = held.into_seat();
    (seat, room, swept)
}
