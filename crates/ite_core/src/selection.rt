//! If-then-else of Boolean functions.

use crate::triples::reduce;
use edge_bits::{Edge, Kind};
use node_store::conditional::{IfThenElse, Reduced};
use node_store::numbers;

/// If-then-else, as the evaluator runs it.
#[derive(Drop)]
pub(crate) struct Selection;

impl IfThenElse for Selection {
    ghost use Rattle.edge_bits.specs.declared.edges.Kind.TheVariants.{Bdd};

    ghost kind = { Bdd };

    fn reduce(&self, f: Edge, g: Edge, h: Edge) -> Reduced {
        reduce(f, g, h)
    }

    fn answer_kind(&self) -> Kind {
        Kind::Bdd
    }

    fn number(&self) -> u8 {
        numbers::ITE
    }

    ghost on_variables = { tt };
}
