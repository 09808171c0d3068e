//! The irredundant cover between two bounds, and its function.

ghost use Rattle.std.specs.Prelude.{◌+◌, ◌*◌, ◌≤◌};
ghost use Rattle.edge_bits.specs.declared.edges.Kind.TheVariants.{Bdd, Zdd};
ghost use Rattle.node_store.specs.Operations.{Runs, halts};
ghost use Rattle.node_store.specs.Views.{Permanent};
ghost use Rattle.zdd_ops.specs.Rooms.{KeepsRoom};
ghost use Rattle.cover_isop.specs.Isops.{HasBounds, bounds_at, cover_in, function_in, isop_work};

use crate::calls::{Half, without};
use crate::morreale::{Morreale, Wanted};
use edge_bits::{Edge, FIRST_ELEMENT};
use ite_core::nested::or;
use node_store::evaluate::evaluate;
use node_store::operator::{Task, without_overflow};
use node_store::{Grow, Stack, Stop, numbers};
use zdd_ops::nested::{change, union};

/// The function of the cover between two bounds.
#[derive(Drop)]
struct Function {
    lower: Edge,
    upper: Edge,
}

impl<G: Grow> Wanted<G> for Function {
    ghost use Rattle.std.specs.Prelude.{false};

    ghost family = { false };

    ghost lower = { λ o. o.lower };

    ghost upper = { λ o. o.upper };

    fn nothing(&self) -> Edge {
        Edge::truth(false)
    }

    fn everything(&self) -> Edge {
        Edge::truth(true)
    }

    fn number(&self) -> u8 {
        numbers::BETWEEN
    }

    fn function(
        &self,
        _store: &mut G,
        _stack: &mut Stack,
        _half: Half,
        answer: Edge,
    ) -> Result<Edge, Stop> {
        Ok(answer)
    }

    fn join(
        &self,
        store: &mut G,
        stack: &mut Stack,
        _task: Task,
        var: u32,
        low: Edge,
        high: Edge,
        both: Edge,
    ) -> Result<Edge, Stop> {
        let hi = or(store, stack, high, both)?;
        let lo = or(store, stack, low, both)?;
        store.make(var, hi, lo)
    }
}

/// The cover between two bounds.
#[derive(Drop)]
struct Cover {
    lower: Edge,
    upper: Edge,
}

impl<G: Grow> Wanted<G> for Cover {
    ghost use Rattle.std.specs.Prelude.{true};

    ghost family = { true };

    ghost lower = { λ o. o.lower };

    ghost upper = { λ o. o.upper };

    fn nothing(&self) -> Edge {
        Edge::empty_family()
    }

    fn everything(&self) -> Edge {
        Edge::base_family()
    }

    fn number(&self) -> u8 {
        numbers::ISOP
    }

    fn function(
        &self,
        store: &mut G,
        stack: &mut Stack,
        half: Half,
        _answer: Edge,
    ) -> Result<Edge, Stop> {
        let lower = without(store, stack, half.lower, half.other)?;
        function_between(store, stack, lower, half.upper)
    }

    fn join(
        &self,
        store: &mut G,
        stack: &mut Stack,
        _task: Task,
        var: u32,
        low: Edge,
        high: Edge,
        both: Edge,
    ) -> Result<Edge, Stop> {
        let literal = FIRST_ELEMENT + 2 * var;
        let with_low = change(store, stack, low, literal + 1)?;
        let with_high = change(store, stack, high, literal)?;
        let halves = union(store, stack, with_low, with_high)?;
        union(store, stack, both, halves)
    }
}

/// The function of the cover between two bounds. It asks for two free frames for each variable.
fn function_between<G: Grow>(
    store: &mut G,
    stack: &mut Stack,
    lower: Edge,
    upper: Edge,
) -> Result<Edge, Stop>
    requires bounds { HasBounds (G.view store.old) lower upper }
    requires permanent { Permanent (G.view store.old) }
    requires room { 2 * (G.view store.old).vars ≤ stack.old.free }
    ensures runs { Runs Bdd (function_in (G.view store.old) (bounds_at (G.view store.old) lower upper)) (isop_work lower upper (G.view store.old)) (G.view store.old) (G.view store.new) (halts result) }
    ensures scratch { KeepsRoom stack.old stack.new }
{
    let op = Morreale(Function { lower, upper });
    without_overflow(evaluate(store, stack, &op, Task::two(lower, upper)))
}

/// The cover between two bounds. It asks for a free frame for each variable and for each element.
pub(crate) fn cover_between<G: Grow>(
    store: &mut G,
    stack: &mut Stack,
    lower: Edge,
    upper: Edge,
) -> Result<Edge, Stop>
    requires bounds { HasBounds (G.view store.old) lower upper }
    requires permanent { Permanent (G.view store.old) }
    requires room { (G.view store.old).vars + (G.view store.old).elements ≤ stack.old.free }
    ensures runs { Runs Zdd (cover_in (G.view store.old) (bounds_at (G.view store.old) lower upper)) (isop_work lower upper (G.view store.old)) (G.view store.old) (G.view store.new) (halts result) }
    ensures scratch { KeepsRoom stack.old stack.new }
{
    let op = Morreale(Cover { lower, upper });
    without_overflow(evaluate(store, stack, &op, Task::two(lower, upper)))
}
