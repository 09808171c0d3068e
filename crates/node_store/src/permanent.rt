//! What is known of the permanent slots of any store.

ghost use Rattle.std.specs.Prelude.{◌≡◌};
ghost use Rattle.node_store.specs.Views.{Kept, Permanent};

use crate::grow::{Grow, Kind};

/// Tells what stands in the permanent slots. It does no work: the number that it asks the store for is not used.
#[inline]
pub fn tell_permanent<G: Grow>(store: &mut G)
    ensures kept { Kept (G.view store.old) (G.view store.new) }
    ensures room { (G.view store.new).room ≡ (G.view store.old).room }
    ensures permanent { Permanent (G.view store.new) }
{
    let _levels = store.levels(Kind::Zdd);
}
