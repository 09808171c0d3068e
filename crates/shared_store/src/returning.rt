//! The turn is given back.

ghost use Rattle.std.specs.Prelude.{◌≡◌, [], ◌∷◌, true, None};
ghost use Rattle.seat_guard.specs.declared.view.Leaving.{Leaving};
ghost use Rattle.seat_guard.specs.Passes.{counts_of, known, in_hand, IsPassOf, shares};
ghost use Rattle.seat_guard.specs.Views.{letting_go};
ghost use Rattle.shared_store.specs.Sharing.{Serving};
ghost use Rattle.shared_store.specs.Storing.{IsLeaving};

use crate::shared::Shared;
use seat_guard::seat::{Guard, Pass};
use seat_guard::told::Leaves;
use std::marker::Brand;

fn leave<E: Leaves>(guard: &Guard<Shared>, pass: &mut Pass<Shared>, shared: Shared)
    requires own { IsPassOf guard.now pass.old × ((known pass.old).holds ≡ true) }
    requires hand { in_hand pass.old ≡ (0, None) ∷ [] }
    requires serves { Serving shared (known pass.old) (counts_of pass.old) }
    requires leaving { IsLeaving (known pass.old) shared E.leaving }
    ensures own { IsPassOf guard.now pass.new × (in_hand pass.new ≡ []) }
    ensures gave { known pass.new ≡ letting_go (known pass.old) E.leaving }
    ensures stands { (shares pass.new ≡ shares pass.old) × (counts_of pass.new ≡ counts_of pass.old) }
{
    guard.put_back::<E>(pass, shared);
}

/// Gives the turn back with what all share. The seat notes which functions were stored since it took the turn: those that
/// nodes have now and none had then; and which was due at the last Full.
pub fn put_back(guard: &Guard<Shared>, pass: &mut Pass<Shared>, shared: Shared)
    requires own { IsPassOf guard.now pass.old × ((known pass.old).holds ≡ true) }
    requires hand { in_hand pass.old ≡ (0, None) ∷ [] }
    requires serves { Serving shared (known pass.old) (counts_of pass.old) }
    ensures own { IsPassOf guard.now pass.new × (in_hand pass.new ≡ []) }
    ensures gave { (x : Leaving) × (known pass.new ≡ letting_go (known pass.old) x) × IsLeaving (known pass.old) shared x }
    ensures stands { (shares pass.new ≡ shares pass.old) × (counts_of pass.new ≡ counts_of pass.old) }
{
    leave::<Brand>(guard, pass, shared);
}
