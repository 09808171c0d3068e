//! Whether what a making takes is there, and if not, why.

ghost use Rattle.std.specs.Prelude.{◌≡◌, ◌==◌, ◌<◌, [], ◌∷◌, All, MatchBool, map};
ghost use Rattle.std.specs.List.{list_any};
ghost use Rattle.edge_bits.specs.declared.edges.Kind.TheVariants as kinds;
ghost use Rattle.function_laws.specs.declared.making.Making.TheVariants as makings;
ghost use Rattle.function_laws.specs.Makings.{bit, element as the_element, function as the_function, literals as the_literals, number as the_number, pairs as the_pairs, are_distinct as no_twice, taken, value as the_value, variable as the_variable, variables as the_variables};
ghost use Rattle.operator_calls.specs.Taking.{of_lent};
ghost use Rattle.store_rows.specs.RowStores.{IsLive, IsLiveAs, view_of};
ghost use Rattle.dd_manager.specs.Refusals.{Judges, first_of};

use crate::row_calls::has_kind;
use edge_bits::Kind;
use function_laws::{AddMaking, BddMaking, ExactMaking, Making, ZddMaking};
use store_rows::{H, RowStore};

/// Why something that a making takes is not there.
#[derive(Clone, Copy, PartialEq, Eq, Debug, Drop)]
pub enum Fault {
    /// No row is live under the name.
    Handle,
    /// The row is of another kind.
    Kind,
    /// There is no such variable, element or number.
    Range,
}

/// Rows, and how many variables and elements there are.
#[derive(Drop)]
pub struct There<'a> {
    pub rows: &'a RowStore,
    pub vars: u32,
    pub elements: u32,
    ghost vars_are: { vars ≡ (view_of rows.now).vars },
    ghost elements_are: { elements ≡ (view_of rows.now).elements },
}

/// The least and the greatest number of a leaf.
const LEAST: i64 = -(1 << 46);

const MOST: i64 = (1 << 46) - 1;

/// A row of a kind.
pub fn function(there: &There<'_>, kind: Kind, h: H) -> Option<Fault>
    ensures { Judges there.now.rows.now (the_function kind h ∷ []) result }
{
    if !there.rows.is_live(h) {
        return Some(Fault::Handle);
    }
    if there.rows.kind(h) != kind {
        return Some(Fault::Kind);
    }
    None
}

/// The first of two.
fn first(one: Option<Fault>, other: Option<Fault>) -> Option<Fault>
    ensures { result ≡ first_of one other }
{
    match one {
        Some(fault) => Some(fault),
        None => other,
    }
}

/// A variable.
fn variable(there: &There<'_>, v: u32) -> Option<Fault>
    ensures { Judges there.now.rows.now (the_variable v ∷ []) result }
{
    if v < there.vars {
        None
    } else {
        Some(Fault::Range)
    }
}

/// An element.
fn element(there: &There<'_>, e: u32) -> Option<Fault>
    ensures { Judges there.now.rows.now (the_element e ∷ []) result }
{
    if e < there.elements {
        None
    } else {
        Some(Fault::Range)
    }
}

/// A number that a leaf may have.
fn value(there: &There<'_>, z: i64) -> Option<Fault>
    ensures { Judges there.now.rows.now (the_value z ∷ []) result }
{
    let _ = there;
    if LEAST <= z && z <= MOST {
        None
    } else {
        Some(Fault::Range)
    }
}

/// Whether each of some numbers is below another.
fn are_below(vars: &[u32], most: u32) -> bool
    ensures { MatchBool result (All (λ v. v < most) vars.now) (All (λ v. v < most) vars.now → ⊥) }
{
    for var in vars {
        if *var >= most {
            return false;
        }
    }
    true
}

/// Some variables.
fn variables(there: &There<'_>, vars: &[u32]) -> Option<Fault>
    ensures { Judges there.now.rows.now (the_variables vars.now ∷ []) result }
{
    if are_below(vars, there.vars) {
        None
    } else {
        Some(Fault::Range)
    }
}

/// Whether each function of some pairs is a row.
fn are_live(rows: &RowStore, pairs: &[(u32, H)]) -> bool
    ensures { MatchBool result (All (λ pair. IsLive rows.now.rows.live pair.1) pairs.now) (All (λ pair. IsLive rows.now.rows.live pair.1) pairs.now → ⊥) }
{
    for pair in pairs {
        if !rows.is_live(pair.1) {
            return false;
        }
    }
    true
}

/// Whether each is a BDD.
fn are_bdds(rows: &RowStore, pairs: &[(u32, H)]) -> bool
    requires { All (λ pair. IsLive rows.now.rows.live pair.1) pairs.now }
    ensures { MatchBool result (All (λ pair. IsLiveAs kinds.Bdd rows.now.rows.live pair.1) pairs.now) (All (λ pair. IsLiveAs kinds.Bdd rows.now.rows.live pair.1) pairs.now → ⊥) }
{
    for pair in pairs {
        if !has_kind(rows, Kind::Bdd, pair.1) {
            return false;
        }
    }
    true
}

/// Whether each variable of some pairs is below another number.
fn are_put_below(pairs: &[(u32, H)], most: u32) -> bool
    ensures { MatchBool result (All (λ pair. pair.0 < most) pairs.now) (All (λ pair. pair.0 < most) pairs.now → ⊥) }
{
    for pair in pairs {
        if pair.0 >= most {
            return false;
        }
    }
    true
}

/// Whether one of some pairs has a variable.
fn has_variable(pairs: &[(u32, H)], var: u32) -> bool
    ensures { result ≡ list_any (λ u. u == var) (map (λ pair. pair.0) pairs.now) }
{
    for pair in pairs {
        if pair.0 == var {
            return true;
        }
    }
    false
}

/// Whether no variable is put twice. It takes the square of their number.
fn are_distinct(pairs: &[(u32, H)]) -> bool
    ensures { result ≡ no_twice (map (λ pair. pair.0) pairs.now) }
{
    let mut rest = pairs;
    while let Some((pair, more)) = rest.split_first() {
        if has_variable(more, pair.0) {
            return false;
        }
        rest = more;
    }
    true
}

/// Variables with functions that are put for them.
fn pairs(there: &There<'_>, pairs: &[(u32, H)]) -> Option<Fault>
    ensures { Judges there.now.rows.now (the_pairs pairs.now ∷ []) result }
{
    if !are_live(there.rows, pairs) {
        return Some(Fault::Handle);
    }
    if !are_bdds(there.rows, pairs) {
        return Some(Fault::Kind);
    }
    if are_put_below(pairs, there.vars) && are_distinct(pairs) {
        None
    } else {
        Some(Fault::Range)
    }
}

/// Elements for the two literals of each variable.
fn literals(there: &There<'_>) -> Option<Fault>
    ensures { Judges there.now.rows.now (the_literals ∷ []) result }
{
    if 2 * u64::from(there.vars) <= u64::from(there.elements) {
        None
    } else {
        Some(Fault::Range)
    }
}

/// Two rows of a kind.
fn two(there: &There<'_>, kind: Kind, a: H, b: H) -> Option<Fault>
    ensures { Judges there.now.rows.now (the_function kind a ∷ the_function kind b ∷ []) result }
{
    first(function(there, kind, a), function(there, kind, b))
}

/// A BDD, and two rows of a kind.
fn three(there: &There<'_>, kind: Kind, a: H, b: H, c: H) -> Option<Fault>
    ensures { Judges there.now.rows.now (the_function kinds.Bdd a ∷ the_function kind b ∷ the_function kind c ∷ []) result }
{
    first(function(there, Kind::Bdd, a), two(there, kind, b, c))
}

/// A row, and a variable.
fn with_variable(there: &There<'_>, kind: Kind, a: H, v: u32) -> Option<Fault>
    ensures { Judges there.now.rows.now (the_function kind a ∷ the_variable v ∷ []) result }
{
    first(function(there, kind, a), variable(there, v))
}

/// The same, and a truth value.
fn with_bit(there: &There<'_>, a: H, v: u32, value: bool) -> Option<Fault>
    ensures { Judges there.now.rows.now (the_function kinds.Bdd a ∷ the_variable v ∷ bit value ∷ []) result }
{
    let _ = value;
    with_variable(there, Kind::Bdd, a, v)
}

/// A row, and any number.
fn with_number(there: &There<'_>, a: H, z: i64) -> Option<Fault>
    ensures { Judges there.now.rows.now (the_function kinds.Add a ∷ the_number z ∷ []) result }
{
    let _ = z;
    function(there, Kind::Add, a)
}

/// A row, and some variables.
fn with_variables(there: &There<'_>, a: H, vars: &[u32]) -> Option<Fault>
    ensures { Judges there.now.rows.now (the_function kinds.Bdd a ∷ the_variables vars.now ∷ []) result }
{
    first(function(there, Kind::Bdd, a), variables(there, vars))
}

/// Two rows, and some variables.
fn two_with_variables(there: &There<'_>, a: H, b: H, vars: &[u32]) -> Option<Fault>
    ensures { Judges there.now.rows.now (the_function kinds.Bdd a ∷ the_function kinds.Bdd b ∷ the_variables vars.now ∷ []) result }
{
    first(
        function(there, Kind::Bdd, a),
        with_variables(there, b, vars),
    )
}

/// A row, a variable, and another row.
fn around_variable(there: &There<'_>, a: H, v: u32, b: H) -> Option<Fault>
    ensures { Judges there.now.rows.now (the_function kinds.Bdd a ∷ the_variable v ∷ the_function kinds.Bdd b ∷ []) result }
{
    first(
        with_variable(there, Kind::Bdd, a, v),
        function(there, Kind::Bdd, b),
    )
}

/// A row, and variables with functions that are put for them.
fn with_pairs(there: &There<'_>, a: H, put: &[(u32, H)]) -> Option<Fault>
    ensures { Judges there.now.rows.now (the_function kinds.Bdd a ∷ the_pairs put.now ∷ []) result }
{
    first(function(there, Kind::Bdd, a), pairs(there, put))
}

/// A family, and an element.
fn with_element(there: &There<'_>, a: H, e: u32) -> Option<Fault>
    ensures { Judges there.now.rows.now (the_function kinds.Zdd a ∷ the_element e ∷ []) result }
{
    first(function(there, Kind::Zdd, a), element(there, e))
}

/// Literals, and a family.
fn literals_and_family(there: &There<'_>, a: H) -> Option<Fault>
    ensures { Judges there.now.rows.now (the_literals ∷ the_function kinds.Zdd a ∷ []) result }
{
    first(literals(there), function(there, Kind::Zdd, a))
}

/// Literals, and two BDDs.
fn literals_and_two(there: &There<'_>, a: H, b: H) -> Option<Fault>
    ensures { Judges there.now.rows.now (the_literals ∷ the_function kinds.Bdd a ∷ the_function kinds.Bdd b ∷ []) result }
{
    first(literals(there), two(there, Kind::Bdd, a, b))
}

/// What makes a BDD.
fn fault_of_bdd(there: &There<'_>, making: &BddMaking<H, &[u32], &[(u32, H)]>) -> Option<Fault>
    ensures { Judges there.now.rows.now (taken (of_lent (makings.Bdd making.now))) result }
{
    match making {
        BddMaking::One => None,
        BddMaking::Zero => None,
        BddMaking::Var(v) => variable(there, *v),
        BddMaking::Not(a) => function(there, Kind::Bdd, *a),
        BddMaking::And(a, b) => two(there, Kind::Bdd, *a, *b),
        BddMaking::Or(a, b) => two(there, Kind::Bdd, *a, *b),
        BddMaking::Xor(a, b) => two(there, Kind::Bdd, *a, *b),
        BddMaking::Ite(a, b, c) => three(there, Kind::Bdd, *a, *b, *c),
        BddMaking::Cofactor(a, v, bit) => with_bit(there, *a, *v, *bit),
        BddMaking::Exists(a, vars) => with_variables(there, *a, vars),
        BddMaking::Forall(a, vars) => with_variables(there, *a, vars),
        BddMaking::AndExists(a, b, vars) => two_with_variables(there, *a, *b, vars),
        BddMaking::Compose(a, v, b) => around_variable(there, *a, *v, *b),
        BddMaking::VectorCompose(a, pairs) => with_pairs(there, *a, pairs),
        BddMaking::Restrict(a, b) => two(there, Kind::Bdd, *a, *b),
        BddMaking::Support(a) => function(there, Kind::Bdd, *a),
        BddMaking::AtLeast(a, z) => with_number(there, *a, *z),
        BddMaking::Pattern(a) => function(there, Kind::Add, *a),
        BddMaking::CoverOf(a) => literals_and_family(there, *a),
    }
}

/// What makes an ADD whose values are in range.
fn fault_of_add(there: &There<'_>, making: &AddMaking<H>) -> Option<Fault>
    ensures { Judges there.now.rows.now (taken (of_lent (makings.Add making.now))) result }
{
    match making {
        AddMaking::Constant(z) => value(there, *z),
        AddMaking::FromBdd(a) => function(there, Kind::Bdd, *a),
        AddMaking::Min(a, b) => two(there, Kind::Add, *a, *b),
        AddMaking::Max(a, b) => two(there, Kind::Add, *a, *b),
        AddMaking::Threshold(a, b) => two(there, Kind::Add, *a, *b),
        AddMaking::AddIte(a, b, c) => three(there, Kind::Add, *a, *b, *c),
    }
}

/// What makes an ADD whose values may be out of range.
fn fault_of_exact(there: &There<'_>, making: &ExactMaking<H>) -> Option<Fault>
    ensures { Judges there.now.rows.now (taken (of_lent (makings.Exact making.now))) result }
{
    match making {
        ExactMaking::Plus(a, b) => two(there, Kind::Add, *a, *b),
        ExactMaking::Minus(a, b) => two(there, Kind::Add, *a, *b),
        ExactMaking::Times(a, b) => two(there, Kind::Add, *a, *b),
        ExactMaking::SumOver(a, v) => with_variable(there, Kind::Add, *a, *v),
    }
}

/// What makes a ZDD.
fn fault_of_zdd(there: &There<'_>, making: &ZddMaking<H>) -> Option<Fault>
    ensures { Judges there.now.rows.now (taken (of_lent (makings.Zdd making.now))) result }
{
    match making {
        ZddMaking::Empty => None,
        ZddMaking::Base => None,
        ZddMaking::Single(e) => element(there, *e),
        ZddMaking::Union(a, b) => two(there, Kind::Zdd, *a, *b),
        ZddMaking::Meet(a, b) => two(there, Kind::Zdd, *a, *b),
        ZddMaking::Diff(a, b) => two(there, Kind::Zdd, *a, *b),
        ZddMaking::Subset1(a, e) => with_element(there, *a, *e),
        ZddMaking::Subset0(a, e) => with_element(there, *a, *e),
        ZddMaking::Change(a, e) => with_element(there, *a, *e),
        ZddMaking::Product(a, b) => two(there, Kind::Zdd, *a, *b),
        ZddMaking::Quotient(a, b) => two(there, Kind::Zdd, *a, *b),
        ZddMaking::Isop(a, b) => literals_and_two(there, *a, *b),
    }
}

/// The first thing that a making takes and that is not there, in the order in which it takes them.
pub fn fault_of(there: &There<'_>, making: &Making<H, &[u32], &[(u32, H)]>) -> Option<Fault>
    ensures { Judges there.now.rows.now (taken (of_lent making.now)) result }
{
    match making {
        Making::Bdd(making) => fault_of_bdd(there, making),
        Making::Add(making) => fault_of_add(there, making),
        Making::Exact(making) => fault_of_exact(there, making),
        Making::Zdd(making) => fault_of_zdd(there, making),
    }
}
