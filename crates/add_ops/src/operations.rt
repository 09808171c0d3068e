//! The operations as they are called, in the scratch that the store lends.

ghost use Rattle.std.specs.Prelude.{◌+ℤ◌, ◌-ℤ◌, ◌*ℤ◌, if◌then◌else◌, int_le, not, pos};
ghost use Rattle.edge_bits.specs.Words.{IsLeafValue};
ghost use Rattle.edge_bits.specs.declared.edges.Kind.TheVariants.{Add, Bdd};
ghost use Rattle.function_laws.specs.Numbers.{at_least as reaches, from_truth, is_zero, minus as difference_of, pattern as pattern_of, plus as sum_of, sum_over as sum_over_of, times as product_of};
ghost use Rattle.function_laws.specs.Values.{constant as constant_of, if_then_else};
ghost use Rattle.node_store.specs.Operations.{Calls, halts};
ghost use Rattle.node_store.specs.Three.{AreThree, value_of_three};
ghost use Rattle.node_store.specs.Two.{value_of_two};
ghost use Rattle.node_store.specs.Views.{AreTwo, Is, IsVariable, add_at, bdd_at};
ghost use Rattle.add_ops.specs.Conversions.{value_of_one};
ghost use Rattle.add_ops.specs.Exact.{exact_halts};
ghost use Rattle.add_ops.specs.Leaves.{value_of_constant};
ghost use Rattle.add_ops.specs.Sums.{value_of_sum};

use crate::arithmetic::{Addition, Overflow, Subtraction, exactly};
use crate::conversion::{OneOperand, RememberedOperand};
use crate::products::Multiplication;
use crate::selection::Selection;
use crate::summation::SumOver;
use crate::truths::{Indicator, LowerBound, NonZero};
use edge_bits::Edge;
use node_store::conditional::ThreeOperands;
use node_store::operator::without_overflow;
use node_store::pointwise::TwoOperands;
use node_store::scratch::in_scratch;
use node_store::{Grow, Stop};

/// The constant function of a number, from -2^46 to 2^46 - 1. What it stores is its leaf.
pub fn constant<G: Grow>(store: &mut G, value: i64) -> Result<Edge, Stop>
    requires { IsLeafValue value }
    ensures { Calls Add (constant_of value) (value_of_constant value) (G.view store.old) (G.view store.new) (halts result) }
{
    store.leaf(value)
}

/// The sum of two functions, where each of its values is from -2^46 to 2^46 - 1, and Overflow where one is not; an answer Stop may come before either. What it stores are parts of the sum by the first variables of the order.
pub fn plus<G: Grow>(store: &mut G, f: Edge, g: Edge) -> Result<Result<Edge, Overflow>, Stop>
    requires { AreTwo Add (G.view store.old) f g }
    ensures { Calls Add (sum_of (add_at (G.view store.old) f) (add_at (G.view store.old) g)) (value_of_two Add (λ a b. a +ℤ b) f g (G.view store.old)) (G.view store.old) (G.view store.new) (exact_halts result) }
{
    let op = Addition;
    exactly(in_scratch(store, TwoOperands { op, f, g }))
}

/// The first function less the second, where each of its values is from -2^46 to 2^46 - 1, and Overflow where one is not; an answer Stop may come before either. What it stores are parts of the difference by the first variables of the order.
pub fn minus<G: Grow>(store: &mut G, f: Edge, g: Edge) -> Result<Result<Edge, Overflow>, Stop>
    requires { AreTwo Add (G.view store.old) f g }
    ensures { Calls Add (difference_of (add_at (G.view store.old) f) (add_at (G.view store.old) g)) (value_of_two Add (λ a b. a -ℤ b) f g (G.view store.old)) (G.view store.old) (G.view store.new) (exact_halts result) }
{
    let op = Subtraction;
    exactly(in_scratch(store, TwoOperands { op, f, g }))
}

/// The product of two functions, where each of its values is from -2^46 to 2^46 - 1, and Overflow where one is not; an answer Stop may come before either. What it stores are parts of the product by the first variables of the order.
pub fn times<G: Grow>(store: &mut G, f: Edge, g: Edge) -> Result<Result<Edge, Overflow>, Stop>
    requires { AreTwo Add (G.view store.old) f g }
    ensures { Calls Add (product_of (add_at (G.view store.old) f) (add_at (G.view store.old) g)) (value_of_two Add (λ a b. a *ℤ b) f g (G.view store.old)) (G.view store.old) (G.view store.new) (exact_halts result) }
{
    let op = Multiplication;
    exactly(in_scratch(store, TwoOperands { op, f, g }))
}

/// The function that is 1 where a truth function holds, and 0 elsewhere. What it stores are parts of that function by the first variables of the order.
pub fn from_bdd<G: Grow>(store: &mut G, f: Edge) -> Result<Edge, Stop>
    requires { Is Bdd (G.view store.old) f }
    ensures { Calls Add (from_truth (bdd_at (G.view store.old) f)) (value_of_one Bdd Add (λ b. if b then pos 1 else pos 0) f (G.view store.old)) (G.view store.old) (G.view store.new) (halts result) }
{
    let op = Indicator;
    without_overflow(in_scratch(store, OneOperand { op, f }))
}

/// The truth function that holds where a function of numbers is not 0. What it stores are parts of that function by the first variables of the order, up to complement.
pub fn pattern<G: Grow>(store: &mut G, f: Edge) -> Result<Edge, Stop>
    requires { Is Add (G.view store.old) f }
    ensures { Calls Bdd (pattern_of (add_at (G.view store.old) f)) (value_of_one Add Bdd (λ z. not (is_zero z)) f (G.view store.old)) (G.view store.old) (G.view store.new) (halts result) }
{
    let op = NonZero;
    without_overflow(in_scratch(store, OneOperand { op, f }))
}

/// The truth function that holds where a function of numbers is at least this value, which may be any. What it stores are parts of that function by the first variables of the order, up to complement.
pub fn at_least<G: Grow>(store: &mut G, f: Edge, value: i64) -> Result<Edge, Stop>
    requires { Is Add (G.view store.old) f }
    ensures { Calls Bdd (reaches (add_at (G.view store.old) f) value) (value_of_one Add Bdd (λ z. int_le value z) f (G.view store.old)) (G.view store.old) (G.view store.new) (halts result) }
{
    let op = LowerBound { bound: value };
    let call = RememberedOperand(OneOperand { op, f });
    without_overflow(in_scratch(store, call))
}

/// The first function of numbers where a condition holds, and the second elsewhere. What it stores are parts of that function by the first variables of the order.
pub fn add_ite<G: Grow>(store: &mut G, c: Edge, f: Edge, g: Edge) -> Result<Edge, Stop>
    requires { AreThree Add (G.view store.old) c f g }
    ensures { Calls Add (if_then_else (bdd_at (G.view store.old) c) (add_at (G.view store.old) f) (add_at (G.view store.old) g)) (value_of_three Add c f g (G.view store.old)) (G.view store.old) (G.view store.new) (halts result) }
{
    let call = ThreeOperands {
        op: Selection,
        f: c,
        g: f,
        h: g,
    };
    without_overflow(in_scratch(store, call))
}

/// The sum of both cofactors of a function by a variable, where each of its values is from -2^46 to 2^46 - 1, and Overflow where one is not; an answer Stop may come before either. Where the function does not depend on the variable, its values are doubled. What it stores are parts of the sum by the first variables of the order.
pub fn sum_over<G: Grow>(store: &mut G, f: Edge, var: u32) -> Result<Result<Edge, Overflow>, Stop>
    requires operand { Is Add (G.view store.old) f }
    requires in_range { IsVariable Add (G.view store.old) var }
    ensures { Calls Add (sum_over_of (add_at (G.view store.old) f) var) (value_of_sum f var (G.view store.old)) (G.view store.old) (G.view store.new) (exact_halts result) }
{
    exactly(in_scratch(store, SumOver { f, var }))
}
