//! Operations on families of sets: each is run on all sets of even and of odd size, whose parts are two at each level.

ghost use Rattle.std.specs.Prelude.{◌≡◌};
ghost use Rattle.edge_bits.specs.declared.edges.Kind.TheVariants.{Zdd};
ghost use Rattle.node_store.specs.Views.{AreTwo};

use crate::diagrams::{LAST, Pair, even_sets, sets};
use crate::watched::Watched;
use edge_bits::Edge;
use node_store::{Grow, Stop};
use std::alloc::Global;
use std::process::Abort;
use std::test::Fail;
use zdd_ops::{change, diff, meet, product, quotient, subset0, subset1, union};

/// An operation that remembers its answers.
#[derive(Clone, Copy, Drop)]
enum Operation {
    Union,
    Meet,
    Diff,
    Subset1,
    Subset0,
    Change,
}

/// The operation, where it goes through all levels: at the last even element, where it takes one.
fn perform<G: Grow>(store: &mut G, operation: Operation, operands: Pair) -> Result<Edge, Stop>
    requires elements { (G.view store.old).elements ≡ 64 }
    requires two { AreTwo Zdd (G.view store.old) operands.even operands.odd }
{
    let Pair { even, odd } = operands;
    match operation {
        Operation::Union => union(store, even, odd),
        Operation::Meet => meet(store, even, odd),
        Operation::Diff => diff(store, even, odd),
        Operation::Subset1 => subset1(store, even, LAST),
        Operation::Subset0 => subset0(store, even, LAST),
        Operation::Change => change(store, even, LAST),
    }
}

/// Makes the operands and runs the operation.
fn run<G: Grow>(store: &mut G, operation: Operation) -> Result<(), Fail>
    requires { (G.view store.old).elements ≡ 64 }
{
    let operands = sets(store, 0)?;
    let _answer = perform(store, operation, operands)?;
    Ok(())
}

/// Runs the operation in a store that ends the test where it forgets.
fn watch<R: Abort + Drop>(rt: R, alloc: Global, operation: Operation) -> Result<(), Fail> {
    let mut store = Watched::new(rt, alloc, 0, 64)?;
    run(&mut store, operation)
}

#[test]
fn union_remembers(rt: HostRuntime) -> Result<(), Fail> {
    watch(&rt, rt.alloc(), Operation::Union)
}

#[test]
fn meet_remembers(rt: HostRuntime) -> Result<(), Fail> {
    watch(&rt, rt.alloc(), Operation::Meet)
}

#[test]
fn diff_remembers(rt: HostRuntime) -> Result<(), Fail> {
    watch(&rt, rt.alloc(), Operation::Diff)
}

#[test]
fn subset1_remembers(rt: HostRuntime) -> Result<(), Fail> {
    watch(&rt, rt.alloc(), Operation::Subset1)
}

#[test]
fn subset0_remembers(rt: HostRuntime) -> Result<(), Fail> {
    watch(&rt, rt.alloc(), Operation::Subset0)
}

#[test]
fn change_remembers(rt: HostRuntime) -> Result<(), Fail> {
    watch(&rt, rt.alloc(), Operation::Change)
}

/// Multiplies two families.
fn multiply<G: Grow>(store: &mut G) -> Result<(), Fail>
    requires { (G.view store.old).elements ≡ 64 }
{
    let Pair { even, odd } = even_sets(store)?;
    let _both = product(store, even, odd)?;
    Ok(())
}

/// Divides the product of two families by the second: the quotient is the first.
fn divide<G: Grow>(rt: &impl Abort, store: &mut G) -> Result<(), Fail>
    requires { (G.view store.old).elements ≡ 64 }
{
    let Pair { even, odd } = even_sets(store)?;
    let both = product(store, even, odd)?;
    assert!(rt; quotient(store, both, odd)? == even);
    Ok(())
}

#[test]
fn product_remembers(rt: HostRuntime) -> Result<(), Fail> {
    let mut store = Watched::new(&rt, rt.alloc(), 0, 64)?;
    multiply(&mut store)
}

#[test]
fn quotient_remembers(rt: HostRuntime) -> Result<(), Fail> {
    let mut store = Watched::new(&rt, rt.alloc(), 0, 64)?;
    divide(&rt, &mut store)
}
