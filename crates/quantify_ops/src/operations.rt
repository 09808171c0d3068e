//! The operations as they are called, in the scratch that the store lends.

ghost use Rattle.std.specs.List.{All};
ghost use Rattle.edge_bits.specs.declared.edges.Kind.TheVariants.{Bdd};
ghost use Rattle.function_laws.specs.Values.{exists_all, forall_all, support as support_of};
ghost use Rattle.node_store.specs.Operations.{Calls, CallsTo, halts};
ghost use Rattle.node_store.specs.Views.{AreTwo, Is, IsVariable, bdd_at};
ghost use Rattle.quantify_ops.specs.Composed.{composed_at, value_of_compose};
ghost use Rattle.quantify_ops.specs.Quantified.{both_at};
ghost use Rattle.quantify_ops.specs.Restricted.{Restricted, work_of_restrict};
ghost use Rattle.quantify_ops.specs.Substituted.{AreSubstituted, substituted_at, value_of_vector_compose};
ghost use Rattle.quantify_ops.specs.Works.{value_of_support, work_of_and_exists, work_of_exists, work_of_forall};

use crate::composition::Composed;
use crate::dependence::Dependence;
use crate::quantifiers::{AndExists, Exists};
use crate::restriction::Restriction;
use crate::substitution::Substituted;
use edge_bits::Edge;
use node_store::binary::flip_if;
use node_store::operator::without_overflow;
use node_store::scratch::in_scratch;
use node_store::{Grow, Stop};

/// The disjunction of both cofactors of a function by each variable of a list, which may have one twice. What it stores are parts, by the first variables of the order and up to complement, of the variables' product and of that value for any such parts of the function.
pub fn exists<G: Grow>(store: &mut G, f: Edge, vars: &[u32]) -> Result<Edge, Stop>
    requires operand { Is Bdd (G.view store.old) f }
    requires in_range { All (IsVariable Bdd (G.view store.old)) vars.now }
    ensures { Calls Bdd (exists_all (bdd_at (G.view store.old) f) vars.now) (work_of_exists f vars.now (G.view store.old)) (G.view store.old) (G.view store.new) (halts result) }
{
    without_overflow(in_scratch(store, Exists { f, vars }))
}

/// The conjunction of both cofactors of a function by each variable of a list, which may have one twice. What it stores are parts, by the first variables of the order and up to complement, of the variables' product and of that value for any such parts of the function.
pub fn forall<G: Grow>(store: &mut G, f: Edge, vars: &[u32]) -> Result<Edge, Stop>
    requires operand { Is Bdd (G.view store.old) f }
    requires in_range { All (IsVariable Bdd (G.view store.old)) vars.now }
    ensures { Calls Bdd (forall_all (bdd_at (G.view store.old) f) vars.now) (work_of_forall f vars.now (G.view store.old)) (G.view store.old) (G.view store.new) (halts result) }
{
    let not_f = flip_if(f, true);
    let some = exists(store, not_f, vars)?;
    Ok(flip_if(some, true))
}

/// `exists` of the conjunction of two functions, which is not made: their relational product (Burch, Clarke, McMillan, Dill and Hwang 1990). What it stores are parts, by the first variables of the order and up to complement, of the variables' product and of that value for any such parts of the two functions.
pub fn and_exists<G: Grow>(store: &mut G, f: Edge, g: Edge, vars: &[u32]) -> Result<Edge, Stop>
    requires operands { AreTwo Bdd (G.view store.old) f g }
    requires in_range { All (IsVariable Bdd (G.view store.old)) vars.now }
    ensures { Calls Bdd (exists_all (both_at (G.view store.old) f g) vars.now) (work_of_and_exists f g vars.now (G.view store.old)) (G.view store.old) (G.view store.new) (halts result) }
{
    without_overflow(in_scratch(store, AndExists { f, g, vars }))
}

/// The product of the variables on which a function depends. What it stores are parts of that product, by the first variables of the order and up to complement.
pub fn support<G: Grow>(store: &mut G, f: Edge) -> Result<Edge, Stop>
    requires { Is Bdd (G.view store.old) f }
    ensures { Calls Bdd (support_of (G.view store.old).vars (bdd_at (G.view store.old) f)) (value_of_support f (G.view store.old)) (G.view store.old) (G.view store.new) (halts result) }
{
    without_overflow(in_scratch(store, Dependence { f }))
}

/// A function with another put for a variable. What it stores are parts of that function by the first variables of the order, up to complement.
pub fn compose<G: Grow>(store: &mut G, f: Edge, var: u32, g: Edge) -> Result<Edge, Stop>
    requires operands { AreTwo Bdd (G.view store.old) f g }
    requires in_range { IsVariable Bdd (G.view store.old) var }
    ensures { Calls Bdd (composed_at (G.view store.old) f var g) (value_of_compose f var g (G.view store.old)) (G.view store.old) (G.view store.new) (halts result) }
{
    without_overflow(in_scratch(store, Composed { f, var, g }))
}

/// A function with others put for some of its variables, all at once; no variable stands twice. What it stores are parts, by the first variables of the order and up to complement, of that value for any such parts of the function.
pub fn vector_compose<G: Grow>(store: &mut G, f: Edge, pairs: &[(u32, Edge)]) -> Result<Edge, Stop>
    requires { AreSubstituted (G.view store.old) f pairs.now }
    ensures { Calls Bdd (substituted_at (G.view store.old) f pairs.now) (value_of_vector_compose f pairs.now (G.view store.old)) (G.view store.old) (G.view store.new) (halts result) }
{
    without_overflow(in_scratch(store, Substituted { f, pairs }))
}

/// A function that is the same where a condition holds and simpler beyond it: it depends on no variable on which the first doesn't, is constant where that has one value on the condition, is the cofactor by a product of literals, and is false where the condition is (Coudert and Madre 1990). Another order of the variables may give another such function. What it stores are parts, by the first variables of the order and up to complement, of such functions for parts of the function, up to complement, and of the condition that were cut by the same variables with the same bits, where a variable above the function's part may be quantified in the condition's, and of the condition with some variables quantified.
pub fn restrict<G: Grow>(store: &mut G, f: Edge, c: Edge) -> Result<Edge, Stop>
    requires { AreTwo Bdd (G.view store.old) f c }
    ensures { CallsTo Bdd (Restricted (G.view store.old) (G.view store.new) f c) ⊥ (work_of_restrict f c (G.view store.old)) (G.view store.old) (G.view store.new) (halts result) }
{
    without_overflow(in_scratch(store, Restriction { f, c }))
}
