//! The value of a diagram of any kind.

ghost use Rattle.std.specs.Prelude.{◌≡◌, length};
ghost use Rattle.function_laws.specs.Values.{assignment_of};
ghost use Rattle.node_store.specs.Listed.{number_of};
ghost use Rattle.node_store.specs.Views.{Is, Kept, levels, values_at};

use crate::walking::value_at;
use edge_bits::{Edge, Kind};
use node_store::Grow;

/// The value of a diagram at the bits of its variables or elements: 0 or 1 of a BDD or a ZDD. It takes the time of one path.
pub fn value_of<G: Grow>(store: &mut G, kind: Kind, edge: Edge, bits: &[bool]) -> i64
    requires edge { Is kind (G.view store.old) edge }
    requires bits { length bits.now ≡ levels kind (G.view store.old) }
    ensures kept { Kept (G.view store.old) (G.view store.new) }
    ensures value { result ≡ number_of kind (values_at kind (G.view store.old) edge (assignment_of bits.now)) }
{
    match kind {
        Kind::Zdd => i64::from(zdd_ops::contains(store, edge, bits)),
        _ => value_at(store, edge, bits),
    }
}
