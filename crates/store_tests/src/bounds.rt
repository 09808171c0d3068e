//! Functions of numbers beside bounds that no job can name, since they lie out of the range of the values.

ghost use Rattle.std.specs.Prelude.{◌≡◌, ◌<◌, IfOk};
ghost use Rattle.edge_bits.specs.declared.edges.Kind.TheVariants.{Add};
ghost use Rattle.function_laws.specs.Values.{constant};
ghost use Rattle.node_slots.specs.Stores.{plain_view};
ghost use Rattle.node_store.specs.Views.{AreTwo, Denotes, Grown, Is};

use edge_bits::Edge;
use node_slots::{Grow, PlainStore};
use node_store::tell_permanent;
use std::alloc::Global;
use std::marker::Model;
use std::process::Abort;
use std::test::Fail;

/// The least value that a leaf can have, -2^46; the greatest is one less than its opposite.
const LEAST: i64 = -70_368_744_177_664;

/// Both ends of the range and what is near zero.
const VALUES: [i64; 5] = [LEAST, -1, 0, 1, -(LEAST + 1)];

/// How many functions of two variables have these values.
const FUNCTIONS: usize = 625;

/// A store of two variables.
#[derive(Drop)]
struct Functions {
    store: PlainStore,
}

impl Model for Functions {
    ghost use Rattle.std.specs.Prelude.{◌≡◌};
    ghost use Rattle.node_slots.specs.Stores.{Plain, plain_view};

    ghost Value = { Plain };

    ghost view = { λ t. t.store };

    ghost invariant = { λ t. (plain_view t.store).vars ≡ 2 };
}

impl Functions {
    /// A store of 2,000 slots, more than all functions of a test need.
    fn new(alloc: Global) -> Result<Functions, Fail> {
        let mut store = PlainStore::new(alloc, 2, 0, 2000)?;
        tell_permanent(&mut store);
        Ok(Functions { store })
    }

    /// Where a function is at least this value.
    fn at_least(&mut self, f: [i64; 4], value: i64) -> Result<Edge, Fail> {
        let f = edge_of(&mut self.store, f)?;
        Ok(add_ops::at_least(&mut self.store, f, value)?)
    }
}

/// The values of a function, by its number.
fn values_of(number: usize) -> [i64; 4] {
    [
        VALUES[number % 5],
        VALUES[number / 5 % 5],
        VALUES[number / 25 % 5],
        VALUES[number / 125 % 5],
    ]
}

/// The edge of the function with these values.
fn edge_of(store: &mut PlainStore, values: [i64; 4]) -> Result<Edge, Fail>
    requires { (plain_view store.old).vars ≡ 2 }
    ensures grown { Grown (plain_view store.old) (plain_view store.new) }
    ensures is { IfOk result (Is Add (plain_view store.new)) }
{
    let [first, second, third, fourth] = values;
    let low = half_of(store, first, second)?;
    let high = half_of(store, third, fourth)?;
    choice_of(store, 1, high, low)
}

/// The edge of the function of the first variable with these values without it and with it.
fn half_of(store: &mut PlainStore, without: i64, with: i64) -> Result<Edge, Fail>
    requires { (plain_view store.old).vars ≡ 2 }
    ensures grown { Grown (plain_view store.old) (plain_view store.new) }
    ensures is { IfOk result (Is Add (plain_view store.new)) }
{
    let lo = leaf_of(store, without)?;
    let hi = leaf_of(store, with)?;
    choice_of(store, 0, hi, lo)
}

/// The first function with a variable, and the second without it.
fn choice_of(store: &mut PlainStore, var: u32, hi: Edge, lo: Edge) -> Result<Edge, Fail>
    requires vars { (plain_view store.old).vars ≡ 2 }
    requires var { var < 2 }
    requires two { AreTwo Add (plain_view store.old) hi lo }
    ensures grown { Grown (plain_view store.old) (plain_view store.new) }
    ensures is { IfOk result (Is Add (plain_view store.new)) }
{
    let condition = store.projection(var);
    Ok(add_ops::add_ite(store, condition, hi, lo)?)
}

/// The leaf of a value.
fn leaf_of(store: &mut PlainStore, value: i64) -> Result<Edge, Fail>
    ensures grown { Grown (plain_view store.old) (plain_view store.new) }
    ensures leaf { IfOk result (λ e. Denotes Add (plain_view store.new) e (constant value)) }
{
    if value < LEAST || value >= -LEAST {
        return Err(Fail::new("no value of a leaf"));
    }
    Ok(add_ops::constant(store, value)?)
}

/// Compares each function with the bound.
fn compare_each(
    rt: &impl Abort,
    functions: &mut Functions,
    bound: i64,
    everywhere: bool,
) -> Result<(), Fail> {
    for number in 0..FUNCTIONS {
        let part = functions.at_least(values_of(number), bound)?;
        assert_eq!(rt; part, Edge::truth(everywhere), "{number}");
    }
    Ok(())
}

/// Compares all functions with a bound that their values are at least everywhere, or nowhere.
fn compare_all(rt: &impl Abort, alloc: Global, bound: i64, everywhere: bool) -> Result<(), Fail> {
    let mut functions = Functions::new(alloc)?;
    compare_each(rt, &mut functions, bound, everywhere)
}

#[test]
fn values_are_at_least_what_is_below_the_range(rt: HostRuntime) -> Result<(), Fail> {
    compare_all(&rt, rt.alloc(), i64::MIN, true)
}

#[test]
fn no_value_is_at_least_what_is_above_the_range(rt: HostRuntime) -> Result<(), Fail> {
    compare_all(&rt, rt.alloc(), i64::MAX, false)
}
