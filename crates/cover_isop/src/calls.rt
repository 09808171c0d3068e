//! Morreale's calls (Minato 1993): what comes of two bounds at a variable. A task's first operand is the lower bound, its second the upper one.

ghost use Rattle.std.specs.Prelude.{◌≡◌, ◌≤◌, false, true};
ghost use Rattle.edge_bits.specs.Permanent.{truth_edge};
ghost use Rattle.edge_bits.specs.declared.edges.Kind.TheVariants.{Bdd};
ghost use Rattle.function_laws.specs.Kinds.{BddFunction};
ghost use Rattle.function_laws.specs.MorrealeCalls.{less};
ghost use Rattle.node_store.specs.Operations.{Runs, halts};
ghost use Rattle.node_store.specs.Tops.{upper_of};
ghost use Rattle.node_store.specs.Views.{AreTwo, IsTop, Kept, Permanent, bdd_at};
ghost use Rattle.cover_isop.specs.Isops.{AreSides, HasBounds, IsFirst};

use edge_bits::Edge;
use ite_core::nested::and;
use node_store::binary::flip_if;
use node_store::operator::Task;
use node_store::parts::{Top, look, parts};
use node_store::{Grow, Stack, Stop};

/// Both bounds where a variable is 1, and where it is 0.
#[derive(Clone, Copy, PartialEq, Eq, Drop)]
pub(crate) struct Sides {
    pub hi: Task,
    pub lo: Task,
}

/// The parts of both bounds where a variable has one value, and the upper bound's other part.
#[derive(Clone, Copy, PartialEq, Eq, Drop)]
pub(crate) struct Half {
    pub lower: Edge,
    pub upper: Edge,
    pub other: Edge,
}

/// The topmost variable on which a bound depends; none where both are constants.
pub(crate) fn first_variable<G: Grow>(store: &mut G, task: Task) -> Option<u32>
    requires bounds { HasBounds (G.view store.old) task.f task.g }
    requires some { task.f ≡ truth_edge false → ⊥ }
    requires not_all { task.g ≡ truth_edge true → ⊥ }
    ensures kept { Kept (G.view store.old) (G.view store.new) }
    ensures first { IsFirst (G.view store.new) task result }
{
    let lower = look(store, task.f);
    let upper = look(store, task.g);
    let top = upper_top(lower.top, upper.top)?;
    Some(top.var)
}

/// The upper one of two top variables.
fn upper_top(first: Option<Top>, second: Option<Top>) -> Option<Top>
    ensures { result ≡ upper_of first second }
{
    match first {
        None => second,
        Some(a) => match second {
            None => Some(a),
            Some(b) => Some(if a.level <= b.level { a } else { b }),
        },
    }
}

/// Both bounds of a task, split at a variable that is not below their tops.
pub(crate) fn sides_of<G: Grow>(store: &mut G, task: Task, var: u32) -> Sides
    requires two { AreTwo Bdd (G.view store.old) task.f task.g }
    requires top { IsTop Bdd (G.view store.old) task.f task.g var }
    ensures kept { Kept (G.view store.old) (G.view store.new) }
    ensures sides { AreSides (G.view store.new) task var result }
{
    let (lower_hi, lower_lo) = parts(store, task.f, var);
    let (upper_hi, upper_lo) = parts(store, task.g, var);
    Sides {
        hi: Task::two(lower_hi, upper_hi),
        lo: Task::two(lower_lo, upper_lo),
    }
}

/// The first function where the second is false.
pub(crate) fn without<G: Grow>(
    store: &mut G,
    stack: &mut Stack,
    f: Edge,
    g: Edge,
) -> Result<Edge, Stop>
    requires operands { AreTwo Bdd (G.view store.old) f g }
    requires permanent { Permanent (G.view store.old) }
    requires room { (G.view store.old).vars ≤ stack.old.free }
    ensures runs { Runs Bdd (less (bdd_at (G.view store.old) f) (bdd_at (G.view store.old) g)) (λ F. F ≡ BddFunction (less (bdd_at (G.view store.old) f) (bdd_at (G.view store.old) g))) (G.view store.old) (G.view store.new) (halts result) }
    ensures stack { stack.new ≡ stack.old }
{
    let not_g = flip_if(g, true);
    and(store, stack, f, not_g)
}
