//! Sums and differences of functions of numbers.

ghost use Rattle.std.specs.Prelude.{◌≡◌};
ghost use Rattle.add_ops.specs.Exact.{exact_halts};

use crate::leaves::leaf_of;
use edge_bits::{Edge, Kind, ZERO_SLOT};
use node_store::operator::{Halt, Task};
use node_store::pointwise::Pointwise;
use node_store::{Grow, Stop, numbers};

/// Some value of the exact result is below -2^46 or above 2^46 - 1, so that no leaf can have it.
#[derive(Clone, Copy, PartialEq, Eq, Debug, Drop)]
pub struct Overflow;

/// The outcome of an operation whose answer may be out of range.
pub(crate) fn exactly(outcome: Result<Edge, Halt>) -> Result<Result<Edge, Overflow>, Stop>
    ensures { exact_halts result ≡ outcome }
{
    match outcome {
        Ok(edge) => Ok(Ok(edge)),
        Err(Halt::Overflow) => Ok(Err(Overflow)),
        Err(Halt::Memory) => Err(Stop::Memory),
        Err(Halt::Full) => Err(Stop::Full),
    }
}

/// Addition, as the evaluator runs it.
#[derive(Drop)]
pub(crate) struct Addition;

impl<G: Grow> Pointwise<G> for Addition {
    ghost use Rattle.std.specs.Prelude.{◌+ℤ◌};
    ghost use Rattle.edge_bits.specs.declared.edges.Kind.TheVariants.{Add};

    ghost kind = { Add };

    ghost op = { λ a b. a +ℤ b };

    fn terminal(&self, f: Edge, g: Edge) -> Option<Edge> {
        if f.index() == ZERO_SLOT {
            return Some(g);
        }
        if g.index() == ZERO_SLOT {
            return Some(f);
        }
        None
    }

    fn at_leaves(&self, store: &mut G, _f: Edge, _g: Edge, x: i64, y: i64) -> Result<Edge, Halt> {
        leaf_of(store, x as i128 + y as i128)
    }

    fn arrange(&self, f: Edge, g: Edge) -> Task {
        Task::ordered(f, g)
    }

    fn answer_kind(&self) -> Kind {
        Kind::Add
    }

    #[tactic(auto, unfolding(node_store::specs::Memo::NumberHolds))]
    fn number(&self) -> u8 {
        numbers::PLUS
    }

    ghost keeps = { tt };
}

/// Subtraction, as the evaluator runs it.
#[derive(Drop)]
pub(crate) struct Subtraction;

impl<G: Grow> Pointwise<G> for Subtraction {
    ghost use Rattle.std.specs.Prelude.{◌-ℤ◌};
    ghost use Rattle.edge_bits.specs.declared.edges.Kind.TheVariants.{Add};

    ghost kind = { Add };

    ghost op = { λ a b. a -ℤ b };

    fn terminal(&self, f: Edge, g: Edge) -> Option<Edge> {
        if g.index() == ZERO_SLOT {
            return Some(f);
        }
        if f == g {
            return Some(Edge::number_zero());
        }
        None
    }

    fn at_leaves(&self, store: &mut G, _f: Edge, _g: Edge, x: i64, y: i64) -> Result<Edge, Halt> {
        leaf_of(store, x as i128 - y as i128)
    }

    fn arrange(&self, f: Edge, g: Edge) -> Task {
        Task::two(f, g)
    }

    fn answer_kind(&self) -> Kind {
        Kind::Add
    }

    #[tactic(auto, unfolding(node_store::specs::Memo::NumberHolds))]
    fn number(&self) -> u8 {
        numbers::MINUS
    }

    ghost keeps = { tt };
}
