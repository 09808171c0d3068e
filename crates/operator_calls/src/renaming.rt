//! What makes a function, with other things standing for the functions that it takes.

ghost use Rattle.std.specs.Prelude.{◌≡◌, map, IfOk};
ghost use Rattle.function_laws.specs.declared.making.Making.TheVariants as makings;
ghost use Rattle.function_laws.specs.Makings.{needs_nodes, taken};
ghost use Rattle.operator_calls.specs.Making.{unmade_as};
ghost use Rattle.operator_calls.specs.Taking.{CanTakeAll, of_lent, pairs_in, renamed_by, with_given, with_lists};

use edge_bits::Memory;
use function_laws::{AddMaking, BddMaking, ExactMaking, Making, ZddMaking};
use std::alloc::Global;

/// Gives for each thing that stands for a function another that does, as for a row's name its edge. `R` is what stands for one before,
/// and `S` afterwards; `V` are some variables, and `P` some with functions that are put for them.
pub trait Renaming<R, S, V, P> {
    ghost use Rattle.std.specs.Prelude.{◌≡◌, ℕ, All, List, map, IfOk};
    ghost use Rattle.edge_bits.specs.declared.edges.Kind.{Kind};
    ghost use Rattle.edge_bits.specs.declared.edges.Kind.TheVariants.{Bdd};
    ghost use Rattle.operator_calls.specs.Taking.{with_given};

    // It stands for a function of the kind.
    ghost is: { Self → Kind → R → Type 0 };

    // How many variables there may be at most.
    ghost most: { Self → ℕ };

    // How many variables and elements there are.
    ghost vars: { Self → ℕ };

    ghost elements: { Self → ℕ };

    ghost gives: { Self → R → S };

    // The variables, and the pairs, as lists.
    ghost listed: { V → List ℕ };

    ghost paired: { P → List (ℕ × R) };

    fn give(&self, one: &R) -> S
        requires { (k : Kind) × is self.now k one.now }
        ensures { result ≡ gives self.now one.now };

    fn give_pairs(&self, alloc: Global, pairs: &P) -> Result<Vec<(u32, S)>, Memory>
        requires { All (λ pair. is self.now Bdd pair.1) (paired pairs.now) }
        ensures { IfOk result (λ given. given.items ≡ map (with_given (gives self.now)) (paired pairs.now)) };

    fn lend<'a>(&self, list: &'a V) -> &'a [u32]
        ensures { result.now ≡ listed list.now };
}

/// The variables with what is given for the functions that are put for them, of what makes a BDD.
fn bdd_pairs<R, S, V, P, N: Renaming<R, S, V, P>>(
    names: &N,
    alloc: Global,
    making: &BddMaking<R, V, P>,
) -> Result<Vec<(u32, S)>, Memory>
    requires { CanTakeAll (N.is names.now) (N.most names.now) (N.vars names.now) (N.elements names.now) (taken (with_lists N.listed N.paired (makings.Bdd making.now))) }
    ensures { IfOk result (λ given. given.items ≡ map (with_given (N.gives names.now)) (pairs_in (with_lists N.listed N.paired (makings.Bdd making.now)))) }
{
    match making {
        BddMaking::VectorCompose(_, pairs) => names.give_pairs(alloc, pairs),
        _ => Ok(Vec::new(alloc)),
    }
}

/// The variables with what is given for the functions that are put for them; none where none are put.
pub fn renamed_pairs<R, S, V, P, N: Renaming<R, S, V, P>>(
    names: &N,
    alloc: Global,
    making: &Making<R, V, P>,
) -> Result<Vec<(u32, S)>, Memory>
    requires { CanTakeAll (N.is names.now) (N.most names.now) (N.vars names.now) (N.elements names.now) (taken (with_lists N.listed N.paired making.now)) }
    ensures { IfOk result (λ given. given.items ≡ map (with_given (N.gives names.now)) (pairs_in (with_lists N.listed N.paired making.now))) }
{
    match making {
        Making::Bdd(making) => bdd_pairs(names, alloc, making),
        _ => Ok(Vec::new(alloc)),
    }
}

/// What makes a BDD.
fn bdd_renamed<'a, R, S, V, P, N: Renaming<R, S, V, P>>(
    names: &N,
    making: &'a BddMaking<R, V, P>,
    given: &'a [(u32, S)],
) -> BddMaking<S, &'a [u32], &'a [(u32, S)]>
    requires can { CanTakeAll (N.is names.now) (N.most names.now) (N.vars names.now) (N.elements names.now) (taken (with_lists N.listed N.paired (makings.Bdd making.now))) }
    requires given { given.now ≡ map (with_given (N.gives names.now)) (pairs_in (with_lists N.listed N.paired (makings.Bdd making.now))) }
    ensures same { of_lent (makings.Bdd result) ≡ renamed_by (N.gives names.now) (with_lists N.listed N.paired (makings.Bdd making.now)) }
    ensures needs { needs_nodes (of_lent (makings.Bdd result)) ≡ needs_nodes (with_lists N.listed N.paired (makings.Bdd making.now)) }
    ensures unmade { unmade_as (of_lent (makings.Bdd result)) ≡ unmade_as (with_lists N.listed N.paired (makings.Bdd making.now)) }
{
    match making {
        BddMaking::One => BddMaking::One,
        BddMaking::Zero => BddMaking::Zero,
        BddMaking::Var(var) => BddMaking::Var(*var),
        BddMaking::Not(a) => BddMaking::Not(names.give(a)),
        BddMaking::And(a, b) => BddMaking::And(names.give(a), names.give(b)),
        BddMaking::Or(a, b) => BddMaking::Or(names.give(a), names.give(b)),
        BddMaking::Xor(a, b) => BddMaking::Xor(names.give(a), names.give(b)),
        BddMaking::Ite(a, b, c) => BddMaking::Ite(names.give(a), names.give(b), names.give(c)),
        BddMaking::Cofactor(a, var, bit) => BddMaking::Cofactor(names.give(a), *var, *bit),
        BddMaking::Exists(a, vars) => BddMaking::Exists(names.give(a), names.lend(vars)),
        BddMaking::Forall(a, vars) => BddMaking::Forall(names.give(a), names.lend(vars)),
        BddMaking::AndExists(a, b, vars) => {
            BddMaking::AndExists(names.give(a), names.give(b), names.lend(vars))
        }
        BddMaking::Compose(a, var, b) => BddMaking::Compose(names.give(a), *var, names.give(b)),
        BddMaking::VectorCompose(a, _) => BddMaking::VectorCompose(names.give(a), given),
        BddMaking::Restrict(a, b) => BddMaking::Restrict(names.give(a), names.give(b)),
        BddMaking::Support(a) => BddMaking::Support(names.give(a)),
        BddMaking::AtLeast(a, value) => BddMaking::AtLeast(names.give(a), *value),
        BddMaking::Pattern(a) => BddMaking::Pattern(names.give(a)),
        BddMaking::CoverOf(a) => BddMaking::CoverOf(names.give(a)),
    }
}

/// What makes an ADD whose values are in range.
fn add_renamed<R, S, V, P, N: Renaming<R, S, V, P>>(
    names: &N,
    making: &AddMaking<R>,
) -> AddMaking<S>
    requires can { CanTakeAll (N.is names.now) (N.most names.now) (N.vars names.now) (N.elements names.now) (taken (with_lists N.listed N.paired (makings.Add making.now))) }
    ensures same { of_lent (makings.Add result) ≡ renamed_by (N.gives names.now) (with_lists N.listed N.paired (makings.Add making.now)) }
    ensures needs { needs_nodes (of_lent (makings.Add result)) ≡ needs_nodes (with_lists N.listed N.paired (makings.Add making.now)) }
    ensures unmade { unmade_as (of_lent (makings.Add result)) ≡ unmade_as (with_lists N.listed N.paired (makings.Add making.now)) }
{
    match making {
        AddMaking::Constant(value) => AddMaking::Constant(*value),
        AddMaking::FromBdd(a) => AddMaking::FromBdd(names.give(a)),
        AddMaking::Min(a, b) => AddMaking::Min(names.give(a), names.give(b)),
        AddMaking::Max(a, b) => AddMaking::Max(names.give(a), names.give(b)),
        AddMaking::Threshold(a, b) => AddMaking::Threshold(names.give(a), names.give(b)),
        AddMaking::AddIte(a, b, c) => {
            AddMaking::AddIte(names.give(a), names.give(b), names.give(c))
        }
    }
}

/// What makes an ADD whose values may be out of range.
fn exact_renamed<R, S, V, P, N: Renaming<R, S, V, P>>(
    names: &N,
    making: &ExactMaking<R>,
) -> ExactMaking<S>
    requires can { CanTakeAll (N.is names.now) (N.most names.now) (N.vars names.now) (N.elements names.now) (taken (with_lists N.listed N.paired (makings.Exact making.now))) }
    ensures same { of_lent (makings.Exact result) ≡ renamed_by (N.gives names.now) (with_lists N.listed N.paired (makings.Exact making.now)) }
    ensures needs { needs_nodes (of_lent (makings.Exact result)) ≡ needs_nodes (with_lists N.listed N.paired (makings.Exact making.now)) }
    ensures unmade { unmade_as (of_lent (makings.Exact result)) ≡ unmade_as (with_lists N.listed N.paired (makings.Exact making.now)) }
{
    match making {
        ExactMaking::Plus(a, b) => ExactMaking::Plus(names.give(a), names.give(b)),
        ExactMaking::Minus(a, b) => ExactMaking::Minus(names.give(a), names.give(b)),
        ExactMaking::Times(a, b) => ExactMaking::Times(names.give(a), names.give(b)),
        ExactMaking::SumOver(a, var) => ExactMaking::SumOver(names.give(a), *var),
    }
}

/// What makes a ZDD.
fn zdd_renamed<R, S, V, P, N: Renaming<R, S, V, P>>(
    names: &N,
    making: &ZddMaking<R>,
) -> ZddMaking<S>
    requires can { CanTakeAll (N.is names.now) (N.most names.now) (N.vars names.now) (N.elements names.now) (taken (with_lists N.listed N.paired (makings.Zdd making.now))) }
    ensures same { of_lent (makings.Zdd result) ≡ renamed_by (N.gives names.now) (with_lists N.listed N.paired (makings.Zdd making.now)) }
    ensures needs { needs_nodes (of_lent (makings.Zdd result)) ≡ needs_nodes (with_lists N.listed N.paired (makings.Zdd making.now)) }
    ensures unmade { unmade_as (of_lent (makings.Zdd result)) ≡ unmade_as (with_lists N.listed N.paired (makings.Zdd making.now)) }
{
    match making {
        ZddMaking::Empty => ZddMaking::Empty,
        ZddMaking::Base => ZddMaking::Base,
        ZddMaking::Single(element) => ZddMaking::Single(*element),
        ZddMaking::Union(a, b) => ZddMaking::Union(names.give(a), names.give(b)),
        ZddMaking::Meet(a, b) => ZddMaking::Meet(names.give(a), names.give(b)),
        ZddMaking::Diff(a, b) => ZddMaking::Diff(names.give(a), names.give(b)),
        ZddMaking::Subset1(a, element) => ZddMaking::Subset1(names.give(a), *element),
        ZddMaking::Subset0(a, element) => ZddMaking::Subset0(names.give(a), *element),
        ZddMaking::Change(a, element) => ZddMaking::Change(names.give(a), *element),
        ZddMaking::Product(a, b) => ZddMaking::Product(names.give(a), names.give(b)),
        ZddMaking::Quotient(a, b) => ZddMaking::Quotient(names.give(a), names.give(b)),
        ZddMaking::Isop(a, b) => ZddMaking::Isop(names.give(a), names.give(b)),
    }
}

/// The same of what is given for each thing that stands for a function. `given` is what `renamed_pairs` answers.
pub fn renamed<'a, R, S, V, P, N: Renaming<R, S, V, P>>(
    names: &N,
    making: &'a Making<R, V, P>,
    given: &'a [(u32, S)],
) -> Making<S, &'a [u32], &'a [(u32, S)]>
    requires can { CanTakeAll (N.is names.now) (N.most names.now) (N.vars names.now) (N.elements names.now) (taken (with_lists N.listed N.paired making.now)) }
    requires given { given.now ≡ map (with_given (N.gives names.now)) (pairs_in (with_lists N.listed N.paired making.now)) }
    ensures same { of_lent result ≡ renamed_by (N.gives names.now) (with_lists N.listed N.paired making.now) }
    ensures needs { needs_nodes (of_lent result) ≡ needs_nodes (with_lists N.listed N.paired making.now) }
    ensures unmade { unmade_as (of_lent result) ≡ unmade_as (with_lists N.listed N.paired making.now) }
{
    match making {
        Making::Bdd(making) => Making::Bdd(bdd_renamed(names, making, given)),
        Making::Add(making) => Making::Add(add_renamed(names, making)),
        Making::Exact(making) => Making::Exact(exact_renamed(names, making)),
        Making::Zdd(making) => Making::Zdd(zdd_renamed(names, making)),
    }
}
