//! Products of functions of numbers.

ghost use Rattle.std.specs.Prelude.{◌≡◌, ◌*ℤ◌, IfSome, IfNone, false};
ghost use Rattle.function_laws.specs.Numbers.{is_value};

use crate::leaves::leaf_of;
use edge_bits::{Edge, Kind, ONE_SLOT, ZERO_SLOT};
use node_store::operator::{Halt, Task};
use node_store::pointwise::Pointwise;
use node_store::{Grow, numbers};

/// Multiplication, as the evaluator runs it.
#[derive(Drop)]
pub(crate) struct Multiplication;

impl<G: Grow> Pointwise<G> for Multiplication {
    ghost use Rattle.std.specs.Prelude.{◌*ℤ◌};
    ghost use Rattle.edge_bits.specs.declared.edges.Kind.TheVariants.{Add};

    ghost kind = { Add };

    ghost op = { λ a b. a *ℤ b };

    fn terminal(&self, f: Edge, g: Edge) -> Option<Edge> {
        if f.index() == ZERO_SLOT || g.index() == ONE_SLOT {
            return Some(f);
        }
        if g.index() == ZERO_SLOT || f.index() == ONE_SLOT {
            return Some(g);
        }
        None
    }

    fn at_leaves(&self, store: &mut G, _f: Edge, _g: Edge, x: i64, y: i64) -> Result<Edge, Halt> {
        match product(x, y) {
            Some(exact) => leaf_of(store, exact as i128),
            None => Err(Halt::Overflow),
        }
    }

    fn arrange(&self, f: Edge, g: Edge) -> Task {
        Task::ordered(f, g)
    }

    fn answer_kind(&self) -> Kind {
        Kind::Add
    }

    #[tactic(auto, unfolding(node_store::specs::Memo::NumberHolds))]
    fn number(&self) -> u8 {
        numbers::TIMES
    }

    ghost keeps = { tt };
}

/// The exact product, unless it is far out of range.
fn product(x: i64, y: i64) -> Option<i64>
    ensures some { IfSome result (λ exact. exact ≡ x *ℤ y) }
    ensures none { IfNone result (is_value (x *ℤ y) ≡ false) }
{
    x.checked_mul(y)
}
