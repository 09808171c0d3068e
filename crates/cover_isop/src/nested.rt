//! The operations on a stack that is handed in, for runs within other operators.

ghost use Rattle.std.specs.Prelude.{◌≡◌, ◌+◌, ◌*◌, ◌≤◌};
ghost use Rattle.edge_bits.specs.declared.edges.Kind.TheVariants.{Bdd, Zdd};
ghost use Rattle.function_laws.specs.IrredundantCovers.{cover_value};
ghost use Rattle.node_store.specs.Memo.{cover_between};
ghost use Rattle.node_store.specs.Operations.{Runs, halts};
ghost use Rattle.node_store.specs.Views.{AreTwo, Is, Permanent, bdd_at, family_at};
ghost use Rattle.zdd_ops.specs.Rooms.{KeepsRoom};
ghost use Rattle.cover_isop.specs.Covers.{AreVariables, cover_work};
ghost use Rattle.cover_isop.specs.Isops.{isop_work};

use crate::covering::cover;
use crate::covers::cover_between;
use edge_bits::Edge;
use node_store::operator::without_overflow;
use node_store::{Grow, Stack, Stop};

/// The function of a cover of so many variables. It asks for a free frame for each element, and for each variable, for an operation within.
pub fn cover_of<G: Grow>(
    store: &mut G,
    stack: &mut Stack,
    family: Edge,
    vars: u32,
) -> Result<Edge, Stop>
    requires family { Is Zdd (G.view store.old) family }
    requires variables { AreVariables (G.view store.old) vars }
    requires permanent { Permanent (G.view store.old) }
    requires room { (G.view store.old).vars + (G.view store.old).elements ≤ stack.old.free }
    ensures runs { Runs Bdd (cover_value vars (G.view store.old).elements (family_at (G.view store.old) family)) (cover_work vars family (G.view store.old)) (G.view store.old) (G.view store.new) (halts result) }
    ensures stack { stack.new ≡ stack.old }
{
    without_overflow(cover(store, stack, family, vars))
}

/// The cover between two bounds that Morreale's calls find, which is irredundant where the lower bound is below the upper one. It asks for a free frame for each variable and for each element, and uses the table of answers.
pub fn isop<G: Grow>(
    store: &mut G,
    stack: &mut Stack,
    lower: Edge,
    upper: Edge,
) -> Result<Edge, Stop>
    requires variables { AreVariables (G.view store.old) (G.view store.old).vars }
    requires literals { 2 * (G.view store.old).vars ≤ (G.view store.old).elements }
    requires bounds { AreTwo Bdd (G.view store.old) lower upper }
    requires permanent { Permanent (G.view store.old) }
    requires room { (G.view store.old).vars + (G.view store.old).elements ≤ stack.old.free }
    ensures runs { Runs Zdd (cover_between (G.view store.old) (bdd_at (G.view store.old) lower) (bdd_at (G.view store.old) upper)) (isop_work lower upper (G.view store.old)) (G.view store.old) (G.view store.new) (halts result) }
    ensures scratch { KeepsRoom stack.old stack.new }
{
    cover_between(store, stack, lower, upper)
}
