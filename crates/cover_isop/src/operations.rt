//! The operations as they are called, in the scratch that the store lends.

ghost use Rattle.std.specs.Prelude.{◌≡◌, ◌*◌, ◌<◌, ◌≤◌, IfOk, max};
ghost use Rattle.edge_bits.specs.declared.edges.Kind.TheVariants.{Bdd, Zdd};
ghost use Rattle.function_laws.specs.IrredundantCovers.{IsIrredundant, cover_value};
ghost use Rattle.node_store.specs.Memo.{Implies, cover_between};
ghost use Rattle.node_store.specs.Operations.{Serves, halts};
ghost use Rattle.node_store.specs.Stacks.{levels_in};
ghost use Rattle.node_store.specs.Views.{AreTwo, Denotes, Is, Kept, Permanent, bdd_at, family_at};
ghost use Rattle.cover_isop.specs.Covers.{AreVariables, CoverCalls, cover_work};
ghost use Rattle.cover_isop.specs.Isops.{HasBounds, HasLevels, isop_work};

use crate::nested;
use edge_bits::{Edge, Kind};
use node_store::{Grow, Stack, Stop};

/// The function of a cover over the first so many variables: it is true where the literals of some combination of the family all are. Elements beyond the literals of these variables are passed over. What it stores are parts, by the first variables of the order and up to complement, of that value for any parts of the family by the first elements of theirs, and of these times a literal.
pub fn cover_of<G: Grow>(store: &mut G, family: Edge, vars: u32) -> Result<Edge, Stop>
    requires family { Is Zdd (G.view store.old) family }
    requires variables { AreVariables (G.view store.old) vars }
    ensures { CoverCalls (λ e. Denotes Bdd (G.view store.new) e (cover_value vars (G.view store.old).elements (family_at (G.view store.old) family))) (cover_work vars family (G.view store.old)) (G.view store.old) (G.view store.new) (halts result) }
{
    let mut stack = store.take_scratch();
    let variables = store.levels(Kind::Bdd);
    let elements = store.levels(Kind::Zdd);
    let levels = if variables < elements {
        elements
    } else {
        variables
    };
    let outcome = cover_within(store, &mut stack, levels, family, vars);
    store.give_scratch(stack);
    outcome
}

/// The same on a stack that is made large enough for so many levels. Both orders have no more: a run takes a frame for each element, and one for each variable.
fn cover_within<G: Grow>(
    store: &mut G,
    stack: &mut Stack,
    levels: u32,
    family: Edge,
    vars: u32,
) -> Result<Edge, Stop>
    requires family { Is Zdd (G.view store.old) family }
    requires variables { AreVariables (G.view store.old) vars }
    requires permanent { Permanent (G.view store.old) }
    requires levels { levels ≡ max (G.view store.old).vars (G.view store.old).elements }
    ensures serves { Serves (λ e. Denotes Bdd (G.view store.new) e (cover_value vars (G.view store.old).elements (family_at (G.view store.old) family))) ⊥ (cover_work vars family (G.view store.old)) (levels_in stack.old < levels) (levels_in stack.old ≤ levels_in stack.new) (G.view store.old) (G.view store.new) (halts result) }
    ensures frames { stack.new.frames ≡ stack.old.frames }
{
    if stack.prepare(levels).is_err() {
        return Err(Stop::Memory);
    }
    nested::cover_of(store, stack, family, vars)
}

/// An irredundant cover between two bounds, the lower one below the upper one, by Morreale's calls (Minato 1993): it is true where the lower bound is and false where the upper one is, and none of its combinations and none of their literals can be left out. What it stores are parts, by the first variables or elements of their order and up to complement, of the functions and families that the calls make.
pub fn isop<G: Grow>(store: &mut G, lower: Edge, upper: Edge) -> Result<Edge, Stop>
    requires variables { AreVariables (G.view store.old) (G.view store.old).vars }
    requires literals { 2 * (G.view store.old).vars ≤ (G.view store.old).elements }
    requires bounds { AreTwo Bdd (G.view store.old) lower upper }
    requires ordered { Implies (bdd_at (G.view store.old) lower) (bdd_at (G.view store.old) upper) }
    ensures serves { CoverCalls (λ e. Denotes Zdd (G.view store.new) e (cover_between (G.view store.old) (bdd_at (G.view store.old) lower) (bdd_at (G.view store.old) upper))) (isop_work lower upper (G.view store.old)) (G.view store.old) (G.view store.new) (halts result) }
    ensures irredundant { IfOk result (λ e. IsIrredundant (G.view store.old).vars (G.view store.old).elements (bdd_at (G.view store.old) lower) (bdd_at (G.view store.old) upper) (family_at (G.view store.new) e)) }
{
    let mut stack = store.take_scratch();
    tell_levels(store);
    let levels = store.levels(Kind::Zdd);
    let outcome = isop_within(store, &mut stack, levels, lower, upper);
    store.give_scratch(stack);
    outcome
}

/// The same on a stack that is made large enough for so many levels. There are at least as many elements as a run for a function within another takes frames.
fn isop_within<G: Grow>(
    store: &mut G,
    stack: &mut Stack,
    levels: u32,
    lower: Edge,
    upper: Edge,
) -> Result<Edge, Stop>
    requires bounds { HasBounds (G.view store.old) lower upper }
    requires permanent { Permanent (G.view store.old) }
    requires levels { levels ≡ (G.view store.old).elements }
    ensures serves { Serves (λ e. Denotes Zdd (G.view store.new) e (cover_between (G.view store.old) (bdd_at (G.view store.old) lower) (bdd_at (G.view store.old) upper))) ⊥ (isop_work lower upper (G.view store.old)) (levels_in stack.old < levels) (levels_in stack.old ≤ levels_in stack.new) (G.view store.old) (G.view store.new) (halts result) }
    ensures frames { stack.new.frames ≡ stack.old.frames }
{
    if stack.prepare(levels).is_err() {
        return Err(Stop::Memory);
    }
    nested::isop(store, stack, lower, upper)
}

/// Tells that each variable has a level of the order, which the nodes of the projections show.
fn tell_levels<G: Grow>(store: &mut G)
    requires { AreVariables (G.view store.old) (G.view store.old).vars }
    ensures kept { Kept (G.view store.old) (G.view store.new) }
    ensures levels { HasLevels (G.view store.new) }
{
    let variables = store.levels(Kind::Bdd);
    for var in 0..variables {
        let projection = store.projection(var);
        let _node = store.open(projection);
    }
}
