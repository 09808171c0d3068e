//! Choices between two functions of numbers by a truth function.

ghost use Rattle.edge_bits.specs.declared.edges.Kind.TheVariants.{Add};
ghost use Rattle.node_store.specs.Three.{AreThree, IsReduced};
ghost use Rattle.node_store.specs.Views.{View, Permanent};

use edge_bits::{Edge, Kind, TRUE_SLOT};
use node_store::binary::flip_if;
use node_store::conditional::{IfThenElse, Reduced};
use node_store::numbers;
use node_store::operator::Task;

/// If-then-else of numbers, as the evaluator runs it.
#[derive(Drop)]
pub(crate) struct Selection;

impl IfThenElse for Selection {
    ghost use Rattle.edge_bits.specs.declared.edges.Kind.TheVariants.{Add};

    ghost kind = { Add };

    fn reduce(&self, f: Edge, g: Edge, h: Edge) -> Reduced {
        reduce(f, g, h)
    }

    fn answer_kind(&self) -> Kind {
        Kind::Add
    }

    #[tactic(auto, unfolding(node_store::specs::Memo::NumberHolds))]
    fn number(&self) -> u8 {
        numbers::ADD_ITE
    }

    ghost on_variables = { tt };
}

/// The answer where the condition is constant or both functions are one, else operands with the same answer and a regular condition.
fn reduce(f: Edge, g: Edge, h: Edge) -> Reduced
    ensures { (w : View) → Permanent w → AreThree Add w f g h → IsReduced Add w f g h result }
{
    if g == h {
        return Reduced::Answer(g);
    }
    if f.index() == TRUE_SLOT {
        return Reduced::Answer(if f.complement() { h } else { g });
    }
    if f.complement() {
        let task = Task {
            f: flip_if(f, true),
            g: h,
            h: g,
        };
        return Reduced::Normal(task, false);
    }
    Reduced::Normal(Task { f, g, h }, false)
}
