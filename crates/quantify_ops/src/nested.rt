//! The operations on a stack that is handed in, the quantifiers over a product of variables, for runs within other operators. Most ask for twice as many free frames as there are variables: for tasks of their own, and for those of an operation within.

ghost use Rattle.std.specs.Prelude.{◌≡◌, ◌*◌, ◌≤◌, List, ℕ, length};
ghost use Rattle.edge_bits.specs.declared.edges.Kind.TheVariants.{Bdd};
ghost use Rattle.function_laws.specs.Values.{exists_all, forall_all, support as support_of};
ghost use Rattle.node_store.specs.Operations.{Runs, RunsTo, halts};
ghost use Rattle.node_store.specs.Stacks.{levels_in};
ghost use Rattle.node_store.specs.Views.{AreTwo, Is, IsVariable, Permanent, bdd_at};
ghost use Rattle.quantify_ops.specs.Composed.{composed_at, value_of_compose};
ghost use Rattle.quantify_ops.specs.Products.{IsCubeOf};
ghost use Rattle.quantify_ops.specs.Quantified.{both_at};
ghost use Rattle.quantify_ops.specs.Restricted.{Restricted, work_of_restrict};
ghost use Rattle.quantify_ops.specs.Works.{value_of_and_exists, value_of_exists, value_of_forall, value_of_support};

use crate::composition::put;
use crate::dependence::collect;
use crate::quantification::quantify;
use crate::restriction::simplify;
use edge_bits::Edge;
use node_store::binary::flip_if;
use node_store::operator::without_overflow;
use node_store::{Grow, Stack, Stop};

/// The function that holds where the conjunction of two functions can be made to hold by the variables of a product.
pub fn and_exists<G: Grow>(
    store: &mut G,
    stack: &mut Stack,
    f: Edge,
    g: Edge,
    cube: Edge,
) -> Result<Edge, Stop>
    requires operands { AreTwo Bdd (G.view store.old) f g }
    requires cube { (vars : List ℕ) × IsCubeOf (G.view store.old) cube vars }
    requires permanent { Permanent (G.view store.old) }
    requires room { 2 * (G.view store.old).vars ≤ stack.old.free }
    ensures runs { (vars : List ℕ) → IsCubeOf (G.view store.old) cube vars → Runs Bdd (exists_all (both_at (G.view store.old) f g) vars) (value_of_and_exists f g vars (G.view store.old)) (G.view store.old) (G.view store.new) (halts result) }
    ensures stack { stack.new ≡ stack.old }
{
    without_overflow(quantify(store, stack, f, g, cube))
}

/// The function that holds where a function can be made to hold by the variables of a product.
pub fn exists<G: Grow>(store: &mut G, stack: &mut Stack, f: Edge, cube: Edge) -> Result<Edge, Stop>
    requires operand { Is Bdd (G.view store.old) f }
    requires cube { (vars : List ℕ) × IsCubeOf (G.view store.old) cube vars }
    requires permanent { Permanent (G.view store.old) }
    requires room { 2 * (G.view store.old).vars ≤ stack.old.free }
    ensures runs { (vars : List ℕ) → IsCubeOf (G.view store.old) cube vars → Runs Bdd (exists_all (bdd_at (G.view store.old) f) vars) (value_of_exists f vars (G.view store.old)) (G.view store.old) (G.view store.new) (halts result) }
    ensures stack { stack.new ≡ stack.old }
{
    let one = Edge::truth(true);
    and_exists(store, stack, one, f, cube)
}

/// The function that holds where a function holds at all values of the variables of a product.
pub fn forall<G: Grow>(store: &mut G, stack: &mut Stack, f: Edge, cube: Edge) -> Result<Edge, Stop>
    requires operand { Is Bdd (G.view store.old) f }
    requires cube { (vars : List ℕ) × IsCubeOf (G.view store.old) cube vars }
    requires permanent { Permanent (G.view store.old) }
    requires room { 2 * (G.view store.old).vars ≤ stack.old.free }
    ensures runs { (vars : List ℕ) → IsCubeOf (G.view store.old) cube vars → Runs Bdd (forall_all (bdd_at (G.view store.old) f) vars) (value_of_forall f vars (G.view store.old)) (G.view store.old) (G.view store.new) (halts result) }
    ensures stack { stack.new ≡ stack.old }
{
    let not_f = flip_if(f, true);
    let some = exists(store, stack, not_f, cube)?;
    Ok(flip_if(some, true))
}

/// The product of the variables on which a function depends. It takes the marks and the table of answers.
pub fn support<G: Grow>(store: &mut G, stack: &mut Stack, f: Edge) -> Result<Edge, Stop>
    requires operand { Is Bdd (G.view store.old) f }
    requires room { (G.view store.old).vars ≤ levels_in stack.old }
    ensures runs { Runs Bdd (support_of (G.view store.old).vars (bdd_at (G.view store.old) f)) (value_of_support f (G.view store.old)) (G.view store.old) (G.view store.new) (halts result) }
    ensures frames { stack.new.frames ≡ stack.old.frames }
    ensures free { stack.new.free ≡ stack.old.free }
    ensures length { length stack.new.marks ≡ length stack.old.marks }
{
    stack.clear_table();
    without_overflow(collect(store, stack, f))
}

/// A function with another put for a variable.
pub fn compose<G: Grow>(
    store: &mut G,
    stack: &mut Stack,
    f: Edge,
    var: u32,
    g: Edge,
) -> Result<Edge, Stop>
    requires operands { AreTwo Bdd (G.view store.old) f g }
    requires in_range { IsVariable Bdd (G.view store.old) var }
    requires permanent { Permanent (G.view store.old) }
    requires room { 2 * (G.view store.old).vars ≤ stack.old.free }
    ensures runs { Runs Bdd (composed_at (G.view store.old) f var g) (value_of_compose f var g (G.view store.old)) (G.view store.old) (G.view store.new) (halts result) }
    ensures stack { stack.new ≡ stack.old }
{
    without_overflow(put(store, stack, f, var, g))
}

/// A function that is the same where a condition holds and simpler beyond it.
pub fn restrict<G: Grow>(store: &mut G, stack: &mut Stack, f: Edge, c: Edge) -> Result<Edge, Stop>
    requires operands { AreTwo Bdd (G.view store.old) f c }
    requires permanent { Permanent (G.view store.old) }
    requires room { 2 * (G.view store.old).vars ≤ stack.old.free }
    ensures runs { RunsTo (Restricted (G.view store.old) (G.view store.new) f c) ⊥ (work_of_restrict f c (G.view store.old)) (G.view store.old) (G.view store.new) (halts result) }
    ensures stack { stack.new ≡ stack.old }
{
    without_overflow(simplify(store, stack, f, c))
}
