//! The value of a diagram at an assignment.

ghost use Rattle.std.specs.Prelude.{◌≡◌, length, if◌then◌else◌};
ghost use Rattle.edge_bits.specs.declared.edges.Kind.{Kind};
ghost use Rattle.function_laws.specs.Values.{assignment_of};
ghost use Rattle.node_store.specs.Views.{Kept, values_at};
ghost use Rattle.node_store.specs.Listed.{number_of};
ghost use Rattle.value_walk.specs.Walking.{CanWalk};

use edge_bits::Edge;
use node_store::{Grow, Opened};

/// The arc of a node that a bit takes.
fn arc(taken: bool, hi: Edge, lo: Edge) -> Edge
    ensures { result ≡ (if taken then hi else lo) }
{
    if taken { hi } else { lo }
}

/// The value of a BDD, 0 or 1, or of an ADD, where bit i is the value of variable i: the arcs that the bits choose, to a leaf.
pub fn value_at<G: Grow>(store: &mut G, edge: Edge, bits: &[bool]) -> i64
    requires edge { (k : Kind) × CanWalk k (G.view store.old) edge }
    requires bits { length bits.now ≡ (G.view store.old).vars }
    ensures value { (k : Kind) → CanWalk k (G.view store.old) edge → result ≡ number_of k (values_at k (G.view store.old) edge (assignment_of bits.now)) }
    ensures kept { Kept (G.view store.old) (G.view store.new) }
{
    let mut at = edge;
    'walk: loop {
        match store.open(at) {
            Opened::Inner(var, hi, lo) => {
                let taken = bits[var as usize];
                at = arc(taken, hi, lo);
            }
            Opened::Leaf(value) => return value,
        }
    }
}
