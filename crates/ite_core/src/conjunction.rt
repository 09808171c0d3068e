//! Logical and, with its terminal cases.

ghost use Rattle.std.specs.Prelude.{◌≡◌, ◌&&◌, IfSome};
ghost use Rattle.edge_bits.specs.declared.edges.Kind.TheVariants.{Bdd};
ghost use Rattle.node_store.specs.Views.{View, AreTwo, Denotes, Permanent};
ghost use Rattle.node_store.specs.Two.{place_at};

use edge_bits::{Edge, Kind, TRUE_SLOT};
use node_store::operator::{Halt, Task};
use node_store::pointwise::Pointwise;
use node_store::{Grow, numbers};

/// Logical and, as the evaluator runs it.
#[derive(Drop)]
pub(crate) struct Conjunction;

impl<G: Grow> Pointwise<G> for Conjunction {
    ghost use Rattle.std.specs.Prelude.{◌&&◌};
    ghost use Rattle.edge_bits.specs.declared.edges.Kind.TheVariants.{Bdd};

    ghost kind = { Bdd };

    ghost op = { λ a b. a && b };

    fn terminal(&self, f: Edge, g: Edge) -> Option<Edge> {
        terminal(f, g)
    }

    fn at_leaves(&self, _store: &mut G, f: Edge, g: Edge, _x: i64, _y: i64) -> Result<Edge, Halt> {
        // The edges of two constants tell it.
        if f.complement() { Ok(f) } else { Ok(g) }
    }

    fn arrange(&self, f: Edge, g: Edge) -> Task {
        Task::ordered(f, g)
    }

    fn answer_kind(&self) -> Kind {
        Kind::Bdd
    }

    fn number(&self) -> u8 {
        numbers::AND
    }

    ghost keeps = { tt };
}

/// The conjunction of equal or opposite operands, or with a constant.
fn terminal(f: Edge, g: Edge) -> Option<Edge>
    ensures { (w : View) → Permanent w → AreTwo Bdd w f g → IfSome result (λ e. Denotes Bdd w e (place_at Bdd (λ a b. a && b) w f g)) }
{
    if f == g {
        return Some(f);
    }
    if f.index() == g.index() {
        return Some(Edge::truth(false));
    }
    if f.index() == TRUE_SLOT {
        return Some(if f.complement() { f } else { g });
    }
    if g.index() == TRUE_SLOT {
        return Some(if g.complement() { g } else { f });
    }
    None
}
