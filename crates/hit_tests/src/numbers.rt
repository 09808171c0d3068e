//! Operations on functions of numbers: each is run on parities with the values 0 and 1, whose parts are one or two at each level.

ghost use Rattle.std.specs.Prelude.{◌≡◌};
ghost use Rattle.edge_bits.specs.declared.edges.Kind.TheVariants.{Add};
ghost use Rattle.node_store.specs.Three.{AreThree};

use crate::diagrams::{LAST, Numbers, number_operands};
use crate::watched::Watched;
use add_ops::{
    Overflow, add_ite, at_least, from_bdd, max, min, minus, pattern, plus, sum_over, threshold,
    times,
};
use edge_bits::Edge;
use node_store::{Grow, Stop};
use std::alloc::Global;
use std::process::Abort;
use std::test::Fail;

/// An operation that remembers its answers.
#[derive(Clone, Copy, Drop)]
enum Operation {
    Plus,
    Minus,
    Times,
    Min,
    Max,
    Threshold,
    FromBdd,
    Pattern,
    AtLeast,
    AddIte,
    SumOver,
}

/// The operation, where it goes through all levels: at the last even variable, where it takes one.
fn perform<G: Grow>(
    store: &mut G,
    operation: Operation,
    operands: Numbers,
) -> Result<Result<Edge, Overflow>, Stop>
    requires vars { (G.view store.old).vars ≡ 64 }
    requires three { AreThree Add (G.view store.old) operands.condition operands.even operands.odd }
{
    let Numbers {
        condition,
        even,
        odd,
    } = operands;
    match operation {
        Operation::Plus => plus(store, even, odd),
        Operation::Minus => minus(store, even, odd),
        Operation::Times => times(store, even, odd),
        Operation::Min => Ok(Ok(min(store, even, odd)?)),
        Operation::Max => Ok(Ok(max(store, even, odd)?)),
        Operation::Threshold => Ok(Ok(threshold(store, even, odd)?)),
        Operation::FromBdd => Ok(Ok(from_bdd(store, condition)?)),
        Operation::Pattern => Ok(Ok(pattern(store, even)?)),
        Operation::AtLeast => Ok(Ok(at_least(store, even, 1)?)),
        Operation::AddIte => Ok(Ok(add_ite(store, condition, even, odd)?)),
        Operation::SumOver => sum_over(store, even, LAST),
    }
}

/// Makes the operands and runs the operation.
fn run<G: Grow>(store: &mut G, operation: Operation) -> Result<(), Fail>
    requires { (G.view store.old).vars ≡ 64 }
{
    let operands = number_operands(store)?;
    let _answer = perform(store, operation, operands)??;
    Ok(())
}

/// Runs the operation in a store that ends the test where it forgets.
fn watch<R: Abort + Drop>(rt: R, alloc: Global, operation: Operation) -> Result<(), Fail> {
    let mut store = Watched::new(rt, alloc, 64, 0)?;
    run(&mut store, operation)
}

#[test]
fn plus_remembers(rt: HostRuntime) -> Result<(), Fail> {
    watch(&rt, rt.alloc(), Operation::Plus)
}

#[test]
fn minus_remembers(rt: HostRuntime) -> Result<(), Fail> {
    watch(&rt, rt.alloc(), Operation::Minus)
}

#[test]
fn times_remembers(rt: HostRuntime) -> Result<(), Fail> {
    watch(&rt, rt.alloc(), Operation::Times)
}

#[test]
fn min_remembers(rt: HostRuntime) -> Result<(), Fail> {
    watch(&rt, rt.alloc(), Operation::Min)
}

#[test]
fn max_remembers(rt: HostRuntime) -> Result<(), Fail> {
    watch(&rt, rt.alloc(), Operation::Max)
}

#[test]
fn threshold_remembers(rt: HostRuntime) -> Result<(), Fail> {
    watch(&rt, rt.alloc(), Operation::Threshold)
}

#[test]
fn from_bdd_remembers(rt: HostRuntime) -> Result<(), Fail> {
    watch(&rt, rt.alloc(), Operation::FromBdd)
}

#[test]
fn pattern_remembers(rt: HostRuntime) -> Result<(), Fail> {
    watch(&rt, rt.alloc(), Operation::Pattern)
}

#[test]
fn at_least_remembers(rt: HostRuntime) -> Result<(), Fail> {
    watch(&rt, rt.alloc(), Operation::AtLeast)
}

#[test]
fn add_ite_remembers(rt: HostRuntime) -> Result<(), Fail> {
    watch(&rt, rt.alloc(), Operation::AddIte)
}

#[test]
fn sum_over_remembers(rt: HostRuntime) -> Result<(), Fail> {
    watch(&rt, rt.alloc(), Operation::SumOver)
}
