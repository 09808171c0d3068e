//! What makes a function of edges, run over any store by the operator of its name.

ghost use Rattle.std.specs.Prelude.{◌≡◌, int_le, is_err, IsTrue, None};
ghost use Rattle.add_ops.specs.Conversions.{value_of_one};
ghost use Rattle.add_ops.specs.Exact.{exact_halts};
ghost use Rattle.edge_bits.specs.declared.edges.Kind.TheVariants as kinds;
ghost use Rattle.function_laws.specs.declared.making.Making.TheVariants as makings;
ghost use Rattle.function_laws.specs.declared.making.ZddMaking.TheVariants as zdds;
ghost use Rattle.function_laws.specs.IrredundantCovers.{cover_value};
ghost use Rattle.function_laws.specs.Makings.{needs_nodes};
ghost use Rattle.function_laws.specs.Numbers.{at_least};
ghost use Rattle.function_laws.specs.Values.{constant, projection};
ghost use Rattle.cover_isop.specs.Covers.{CoverCalls, cover_work};
ghost use Rattle.node_store.specs.Operations.{Calls, halts};
ghost use Rattle.node_store.specs.Views.{Denotes, Is, IsVariable, Kept, add_at, family_at};
ghost use Rattle.operator_calls.specs.Making.{HasLiterals, RunsMaking, ServesMaking, takes, unmade_as};
ghost use Rattle.operator_calls.specs.Taking.{of_lent};

use crate::unmade::Unmade;
use add_ops::Overflow;
use edge_bits::{Edge, Kind, Memory};
use function_laws::{AddMaking, BddMaking, ExactMaking, Making, ZddMaking};
use node_store::{Grow, Stop};

/// The constant of a truth value.
fn truth<G: Grow>(store: &mut G, value: bool) -> Edge
    ensures kept { Kept (G.view store.old) (G.view store.new) }
    ensures room { (G.view store.new).room ≡ (G.view store.old).room }
    ensures denotes { Denotes kinds.Bdd (G.view store.new) result (constant value) }
{
    let _permanent = store.levels(Kind::Bdd);
    Edge::truth(value)
}

/// The function that holds where the variable does.
fn variable<G: Grow>(store: &mut G, var: u32) -> Edge
    requires { IsVariable kinds.Bdd (G.view store.old) var }
    ensures kept { Kept (G.view store.old) (G.view store.new) }
    ensures room { (G.view store.new).room ≡ (G.view store.old).room }
    ensures denotes { Denotes kinds.Bdd (G.view store.new) result (projection var) }
{
    store.projection(var)
}

/// Where a function is at least a number.
fn at_least_in<G: Grow>(store: &mut G, edge: Edge, value: &i64) -> Result<Edge, Stop>
    requires { Is kinds.Add (G.view store.old) edge }
    ensures { Calls kinds.Bdd (at_least (add_at (G.view store.old) edge) value.now) (value_of_one kinds.Add kinds.Bdd (λ z. int_le value.now z) edge (G.view store.old)) (G.view store.old) (G.view store.new) (halts result) }
{
    add_ops::at_least(store, edge, *value)
}

/// The function of a cover over all variables.
fn function_of_cover<G: Grow>(store: &mut G, family: Edge) -> Result<Edge, Stop>
    requires family { Is kinds.Zdd (G.view store.old) family }
    requires literals { HasLiterals (G.view store.old) }
    ensures { CoverCalls (λ e. Denotes kinds.Bdd (G.view store.new) e (cover_value (G.view store.old).vars (G.view store.old).elements (family_at (G.view store.old) family))) (cover_work (G.view store.old).vars family (G.view store.old)) (G.view store.old) (G.view store.new) (halts result) }
{
    let vars = store.levels(Kind::Bdd);
    cover_isop::cover_of(store, family, vars)
}

/// What makes a BDD.
fn run_bdd<G: Grow>(
    store: &mut G,
    making: &BddMaking<Edge, &[u32], &[(u32, Edge)]>,
) -> Result<Edge, Stop>
    requires { takes (of_lent (makings.Bdd making.now)) (G.view store.old) }
    ensures serves { ServesMaking (of_lent (makings.Bdd making.now)) (G.view store.old) (G.view store.new) (halts result) }
    ensures sure { IsTrue (is_err result) → IsTrue (needs_nodes (of_lent (makings.Bdd making.now))) }
{
    match making {
        BddMaking::One => Ok(truth(store, true)),
        BddMaking::Zero => Ok(truth(store, false)),
        BddMaking::Var(var) => Ok(variable(store, *var)),
        BddMaking::Not(a) => ite_core::not(store, *a),
        BddMaking::And(a, b) => ite_core::and(store, *a, *b),
        BddMaking::Or(a, b) => ite_core::or(store, *a, *b),
        BddMaking::Xor(a, b) => ite_core::xor(store, *a, *b),
        BddMaking::Ite(a, b, c) => ite_core::ite(store, *a, *b, *c),
        BddMaking::Cofactor(a, var, bit) => ite_core::cofactor(store, *a, *var, *bit),
        BddMaking::Exists(a, vars) => quantify_ops::exists(store, *a, vars),
        BddMaking::Forall(a, vars) => quantify_ops::forall(store, *a, vars),
        BddMaking::AndExists(a, b, vars) => quantify_ops::and_exists(store, *a, *b, vars),
        BddMaking::Compose(a, var, b) => quantify_ops::compose(store, *a, *var, *b),
        BddMaking::VectorCompose(a, pairs) => quantify_ops::vector_compose(store, *a, pairs),
        BddMaking::Restrict(a, b) => quantify_ops::restrict(store, *a, *b),
        BddMaking::Support(a) => quantify_ops::support(store, *a),
        BddMaking::AtLeast(a, value) => at_least_in(store, *a, value),
        BddMaking::Pattern(a) => add_ops::pattern(store, *a),
        BddMaking::CoverOf(a) => function_of_cover(store, *a),
    }
}

/// What makes an ADD whose values are in range.
fn run_add<G: Grow>(store: &mut G, making: &AddMaking<Edge>) -> Result<Edge, Stop>
    requires { takes (of_lent (makings.Add making.now)) (G.view store.old) }
    ensures { ServesMaking (of_lent (makings.Add making.now)) (G.view store.old) (G.view store.new) (halts result) }
{
    match making {
        AddMaking::Constant(value) => add_ops::constant(store, *value),
        AddMaking::FromBdd(a) => add_ops::from_bdd(store, *a),
        AddMaking::Min(a, b) => add_ops::min(store, *a, *b),
        AddMaking::Max(a, b) => add_ops::max(store, *a, *b),
        AddMaking::Threshold(a, b) => add_ops::threshold(store, *a, *b),
        AddMaking::AddIte(a, b, c) => add_ops::add_ite(store, *a, *b, *c),
    }
}

/// What makes an ADD whose values may be out of range.
fn run_exact<G: Grow>(
    store: &mut G,
    making: &ExactMaking<Edge>,
) -> Result<Result<Edge, Overflow>, Stop>
    requires { takes (of_lent (makings.Exact making.now)) (G.view store.old) }
    ensures { ServesMaking (of_lent (makings.Exact making.now)) (G.view store.old) (G.view store.new) (exact_halts result) }
{
    match making {
        ExactMaking::Plus(a, b) => add_ops::plus(store, *a, *b),
        ExactMaking::Minus(a, b) => add_ops::minus(store, *a, *b),
        ExactMaking::Times(a, b) => add_ops::times(store, *a, *b),
        ExactMaking::SumOver(a, var) => add_ops::sum_over(store, *a, *var),
    }
}

/// A cover between two bounds, where the first is below the second.
fn run_isop<G: Grow>(store: &mut G, lower: Edge, upper: Edge) -> Result<Result<Edge, Unmade>, Stop>
    requires { takes (makings.Zdd (zdds.Isop lower upper)) (G.view store.old) }
    ensures { RunsMaking (makings.Zdd (zdds.Isop lower upper)) (G.view store.old) (G.view store.new) result }
{
    match ite_core::leq(store, lower, upper) {
        Ok(true) => Ok(Ok(cover_isop::isop(store, lower, upper)?)),
        Ok(false) => Ok(Err(Unmade::Apart)),
        Err(Memory) => Err(Stop::Memory),
    }
}

/// What makes a ZDD, if there is always one.
fn run_zdd<G: Grow>(store: &mut G, making: &ZddMaking<Edge>) -> Result<Edge, Stop>
    requires takes { takes (of_lent (makings.Zdd making.now)) (G.view store.old) }
    requires sure { unmade_as (of_lent (makings.Zdd making.now)) ≡ None }
    ensures serves { ServesMaking (of_lent (makings.Zdd making.now)) (G.view store.old) (G.view store.new) (halts result) }
    ensures sure { IsTrue (is_err result) → IsTrue (needs_nodes (of_lent (makings.Zdd making.now))) }
{
    match making {
        ZddMaking::Empty => zdd_ops::empty(store),
        ZddMaking::Base => zdd_ops::base(store),
        ZddMaking::Single(element) => zdd_ops::single(store, *element),
        ZddMaking::Union(a, b) => zdd_ops::union(store, *a, *b),
        ZddMaking::Meet(a, b) => zdd_ops::meet(store, *a, *b),
        ZddMaking::Diff(a, b) => zdd_ops::diff(store, *a, *b),
        ZddMaking::Subset1(a, element) => zdd_ops::subset1(store, *a, *element),
        ZddMaking::Subset0(a, element) => zdd_ops::subset0(store, *a, *element),
        ZddMaking::Change(a, element) => zdd_ops::change(store, *a, *element),
        ZddMaking::Product(a, b) => zdd_ops::product(store, *a, *b),
        ZddMaking::Quotient(a, b) => zdd_ops::quotient(store, *a, *b),
        ZddMaking::Isop(_, _) => unreachable!(),
    }
}

/// What makes a function, run by the operator of its name. Only what makes a sum, a difference, a product or a sum over a variable
/// may find a value out of range, only what makes a cover may find its bounds apart, and what makes a constant BDD, a projection, a complement or a family of no operand is never refused.
/// It takes the operator's time.
pub fn run<G: Grow>(
    store: &mut G,
    making: &Making<Edge, &[u32], &[(u32, Edge)]>,
) -> Result<Result<Edge, Unmade>, Stop>
    requires { takes (of_lent making.now) (G.view store.old) }
    ensures runs { RunsMaking (of_lent making.now) (G.view store.old) (G.view store.new) result }
    ensures sure { IsTrue (is_err result) → IsTrue (needs_nodes (of_lent making.now)) }
{
    match making {
        Making::Bdd(making) => Ok(Ok(run_bdd(store, making)?)),
        Making::Add(making) => Ok(Ok(run_add(store, making)?)),
        Making::Exact(making) => match run_exact(store, making)? {
            Ok(edge) => Ok(Ok(edge)),
            Err(Overflow) => Ok(Err(Unmade::Overflow)),
        },
        Making::Zdd(ZddMaking::Isop(lower, upper)) => run_isop(store, *lower, *upper),
        Making::Zdd(making) => Ok(Ok(run_zdd(store, making)?)),
    }
}
