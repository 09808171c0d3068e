//! The node of an edge.

ghost use Rattle.std.specs.Prelude.{◌≡◌};
ghost use Rattle.edge_bits.specs.Words.{IsInRange};
ghost use Rattle.edge_bits.specs.declared.edges.Kind.{Kind as KindOf};
ghost use Rattle.node_store.specs.Contents.{opened_of};
ghost use Rattle.node_store.specs.Views.{Is, IsFunction, Opens, values_at};
ghost use Rattle.step_store.specs.Knowing.{Learns};

use crate::steps::Steps;
use edge_bits::{Edge, Word, unpack};
use node_store::Opened;
use node_store::binary::flip_if;

/// A word, with the complement of the edge to it pushed to both children.
pub fn opened(word: Word, complement: bool) -> Opened
    requires { IsInRange word }
    ensures { result ≡ opened_of word complement }
{
    match word {
        Word::Leaf(value) => Opened::Leaf(if complement { 0 } else { value }),
        Word::Inner(node) => {
            let hi = Edge::new(node.hi, false);
            Opened::Inner(
                node.var as u32,
                flip_if(hi, complement),
                flip_if(node.lo, complement),
            )
        }
    }
}

/// The node of an edge that denotes a function, by one node load, which tells of both children.
#[tactic(auto, using(crate::proofs::Opened::edge_within))]
pub fn open<S: Steps>(seat: &mut S, edge: Edge) -> Opened
    requires own { S.shares seat.old }
    requires edge { IsFunction (S.known seat.old).view edge }
    ensures own { S.shares seat.new }
    ensures home { (S.table seat.new ≡ S.table seat.old) × (S.rest seat.new ≡ S.rest seat.old) }
    ensures learns { Learns (S.known seat.old) (S.known seat.new) }
    ensures hand { (S.known seat.new).hand ≡ (S.known seat.old).hand }
    ensures opens { (k : KindOf) → Is k (S.known seat.old).view edge → Opens k (S.known seat.new).view edge (values_at k (S.known seat.old).view edge) result }
{
    match unpack(seat.load_node(edge.index())) {
        Some(word) => opened(word, edge.complement()),
        None => unreachable!(),
    }
}
