//! Choices between the values of two functions of numbers.

ghost use Rattle.std.specs.Prelude.{if◌then◌else◌, int_le, pos};
ghost use Rattle.edge_bits.specs.declared.edges.Kind.TheVariants.{Add};
ghost use Rattle.function_laws.specs.Numbers.{greater, lesser, threshold};
ghost use Rattle.node_store.specs.Operations.{Calls, halts};
ghost use Rattle.node_store.specs.Two.{value_of_two};
ghost use Rattle.node_store.specs.Views.{AreTwo, add_at};

use crate::leaves::chosen;
use edge_bits::{Edge, Kind, ZERO_SLOT};
use node_store::operator::{Halt, Task, without_overflow};
use node_store::pointwise::{Pointwise, TwoOperands};
use node_store::scratch::in_scratch;
use node_store::{Grow, Stop, numbers};

/// The lesser value, as the evaluator runs it.
#[derive(Drop)]
struct Minimum;

impl<G: Grow> Pointwise<G> for Minimum {
    ghost use Rattle.std.specs.Prelude.{if◌then◌else◌, int_le};
    ghost use Rattle.edge_bits.specs.declared.edges.Kind.TheVariants.{Add};

    ghost kind = { Add };

    ghost op = { λ a b. if int_le a b then a else b };

    fn terminal(&self, f: Edge, g: Edge) -> Option<Edge> {
        if f == g { Some(f) } else { None }
    }

    fn at_leaves(&self, _store: &mut G, f: Edge, g: Edge, x: i64, y: i64) -> Result<Edge, Halt> {
        Ok(chosen(x <= y, f, g))
    }

    fn arrange(&self, f: Edge, g: Edge) -> Task {
        Task::ordered(f, g)
    }

    fn answer_kind(&self) -> Kind {
        Kind::Add
    }

    #[tactic(auto, unfolding(node_store::specs::Memo::NumberHolds))]
    fn number(&self) -> u8 {
        numbers::MIN
    }

    ghost keeps = { tt };
}

/// The greater value, as the evaluator runs it.
#[derive(Drop)]
struct Maximum;

impl<G: Grow> Pointwise<G> for Maximum {
    ghost use Rattle.std.specs.Prelude.{if◌then◌else◌, int_le};
    ghost use Rattle.edge_bits.specs.declared.edges.Kind.TheVariants.{Add};

    ghost kind = { Add };

    ghost op = { λ a b. if int_le b a then a else b };

    fn terminal(&self, f: Edge, g: Edge) -> Option<Edge> {
        if f == g { Some(f) } else { None }
    }

    fn at_leaves(&self, _store: &mut G, f: Edge, g: Edge, x: i64, y: i64) -> Result<Edge, Halt> {
        Ok(chosen(y <= x, f, g))
    }

    fn arrange(&self, f: Edge, g: Edge) -> Task {
        Task::ordered(f, g)
    }

    fn answer_kind(&self) -> Kind {
        Kind::Add
    }

    #[tactic(auto, unfolding(node_store::specs::Memo::NumberHolds))]
    fn number(&self) -> u8 {
        numbers::MAX
    }

    ghost keeps = { tt };
}

/// The first value where it reaches the second, else 0, as the evaluator runs it.
#[derive(Drop)]
struct Reaching;

impl<G: Grow> Pointwise<G> for Reaching {
    ghost use Rattle.std.specs.Prelude.{if◌then◌else◌, int_le, pos};
    ghost use Rattle.edge_bits.specs.declared.edges.Kind.TheVariants.{Add};

    ghost kind = { Add };

    ghost op = { λ a b. if int_le b a then a else pos 0 };

    fn terminal(&self, f: Edge, g: Edge) -> Option<Edge> {
        if f == g || f.index() == ZERO_SLOT {
            Some(f)
        } else {
            None
        }
    }

    fn at_leaves(&self, _store: &mut G, f: Edge, _g: Edge, x: i64, y: i64) -> Result<Edge, Halt> {
        Ok(chosen(y <= x, f, Edge::number_zero()))
    }

    fn arrange(&self, f: Edge, g: Edge) -> Task {
        Task::two(f, g)
    }

    fn answer_kind(&self) -> Kind {
        Kind::Add
    }

    #[tactic(auto, unfolding(node_store::specs::Memo::NumberHolds))]
    fn number(&self) -> u8 {
        numbers::THRESHOLD
    }

    ghost keeps = { tt };
}

/// The lesser value of two functions at each assignment. What it stores are parts of that function by the first variables of the order.
pub fn min<G: Grow>(store: &mut G, f: Edge, g: Edge) -> Result<Edge, Stop>
    requires { AreTwo Add (G.view store.old) f g }
    ensures { Calls Add (lesser (add_at (G.view store.old) f) (add_at (G.view store.old) g)) (value_of_two Add (λ a b. if int_le a b then a else b) f g (G.view store.old)) (G.view store.old) (G.view store.new) (halts result) }
{
    let op = Minimum;
    without_overflow(in_scratch(store, TwoOperands { op, f, g }))
}

/// The greater value of two functions at each assignment. What it stores are parts of that function by the first variables of the order.
pub fn max<G: Grow>(store: &mut G, f: Edge, g: Edge) -> Result<Edge, Stop>
    requires { AreTwo Add (G.view store.old) f g }
    ensures { Calls Add (greater (add_at (G.view store.old) f) (add_at (G.view store.old) g)) (value_of_two Add (λ a b. if int_le b a then a else b) f g (G.view store.old)) (G.view store.old) (G.view store.new) (halts result) }
{
    let op = Maximum;
    without_overflow(in_scratch(store, TwoOperands { op, f, g }))
}

/// The value of the first function where it is at least that of the second, and 0 elsewhere. What it stores are parts of that function by the first variables of the order.
pub fn threshold<G: Grow>(store: &mut G, f: Edge, g: Edge) -> Result<Edge, Stop>
    requires { AreTwo Add (G.view store.old) f g }
    ensures { Calls Add (threshold (add_at (G.view store.old) f) (add_at (G.view store.old) g)) (value_of_two Add (λ a b. if int_le b a then a else pos 0) f g (G.view store.old)) (G.view store.old) (G.view store.new) (halts result) }
{
    let op = Reaching;
    without_overflow(in_scratch(store, TwoOperands { op, f, g }))
}
