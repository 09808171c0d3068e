//! Operations on Boolean functions: each is run on parities, whose parts are one or two at each level.

ghost use Rattle.std.specs.Prelude.{◌≡◌};
ghost use Rattle.edge_bits.specs.declared.edges.Kind.TheVariants.{Bdd};
ghost use Rattle.node_store.specs.Three.{AreThree};
ghost use Rattle.node_store.specs.Views.{AreTwo};

use crate::diagrams::{LAST, Truths, truth_operands};
use crate::watched::Watched;
use edge_bits::Edge;
use ite_core::{and, cofactor, ite, leq, xor};
use node_store::{Grow, Stop};
use quantify_ops::{and_exists, compose, exists, forall, restrict, support, vector_compose};
use std::alloc::Global;
use std::process::Abort;
use std::test::Fail;

/// An operation that remembers its answers.
#[derive(Clone, Copy, Drop)]
enum Operation {
    And,
    Xor,
    Ite,
    Leq,
    Cofactor,
    Exists,
    Forall,
    AndExists,
    Compose,
    VectorCompose,
    Restrict,
    Support,
}

/// Whether the conjunction of two functions implies the first: it does, and each part of it is to be seen.
fn implied<G: Grow>(store: &mut G, f: Edge, g: Edge) -> Result<Edge, Stop>
    requires { AreTwo Bdd (G.view store.old) f g }
{
    let both = and(store, f, g)?;
    match leq(store, both, f) {
        Ok(answer) => Ok(Edge::truth(answer)),
        Err(_) => Err(Stop::Memory),
    }
}

/// The operation, where it goes through all levels: at the last even variable, where it takes one.
fn perform<G: Grow>(store: &mut G, operation: Operation, operands: Truths) -> Result<Edge, Stop>
    requires vars { (G.view store.old).vars ≡ 64 }
    requires three { AreThree Bdd (G.view store.old) operands.even operands.odd operands.last }
{
    let Truths { even, odd, last } = operands;
    match operation {
        Operation::And => and(store, even, odd),
        Operation::Xor => xor(store, even, odd),
        Operation::Ite => ite(store, even, odd, last),
        Operation::Leq => implied(store, even, odd),
        Operation::Cofactor => cofactor(store, even, LAST, true),
        Operation::Exists => exists(store, even, &[LAST]),
        Operation::Forall => forall(store, even, &[LAST]),
        Operation::AndExists => and_exists(store, even, odd, &[LAST]),
        Operation::Compose => compose(store, even, LAST, odd),
        Operation::VectorCompose => vector_compose(store, even, &[(LAST, odd)]),
        Operation::Restrict => restrict(store, even, last),
        Operation::Support => support(store, even),
    }
}

/// Makes the operands and runs the operation.
fn run<G: Grow>(store: &mut G, operation: Operation) -> Result<(), Fail>
    requires { (G.view store.old).vars ≡ 64 }
{
    let operands = truth_operands(store)?;
    let _answer = perform(store, operation, operands)?;
    Ok(())
}

/// Runs the operation in a store that ends the test where it forgets.
fn watch<R: Abort + Drop>(rt: R, alloc: Global, operation: Operation) -> Result<(), Fail> {
    let mut store = Watched::new(rt, alloc, 64, 0)?;
    run(&mut store, operation)
}

#[test]
fn and_remembers(rt: HostRuntime) -> Result<(), Fail> {
    watch(&rt, rt.alloc(), Operation::And)
}

#[test]
fn xor_remembers(rt: HostRuntime) -> Result<(), Fail> {
    watch(&rt, rt.alloc(), Operation::Xor)
}

#[test]
fn ite_remembers(rt: HostRuntime) -> Result<(), Fail> {
    watch(&rt, rt.alloc(), Operation::Ite)
}

#[test]
fn leq_remembers(rt: HostRuntime) -> Result<(), Fail> {
    watch(&rt, rt.alloc(), Operation::Leq)
}

#[test]
fn cofactor_remembers(rt: HostRuntime) -> Result<(), Fail> {
    watch(&rt, rt.alloc(), Operation::Cofactor)
}

#[test]
fn exists_remembers(rt: HostRuntime) -> Result<(), Fail> {
    watch(&rt, rt.alloc(), Operation::Exists)
}

#[test]
fn forall_remembers(rt: HostRuntime) -> Result<(), Fail> {
    watch(&rt, rt.alloc(), Operation::Forall)
}

#[test]
fn and_exists_remembers(rt: HostRuntime) -> Result<(), Fail> {
    watch(&rt, rt.alloc(), Operation::AndExists)
}

#[test]
fn compose_remembers(rt: HostRuntime) -> Result<(), Fail> {
    watch(&rt, rt.alloc(), Operation::Compose)
}

#[test]
fn vector_compose_remembers(rt: HostRuntime) -> Result<(), Fail> {
    watch(&rt, rt.alloc(), Operation::VectorCompose)
}

#[test]
fn restrict_remembers(rt: HostRuntime) -> Result<(), Fail> {
    watch(&rt, rt.alloc(), Operation::Restrict)
}

#[test]
fn support_remembers(rt: HostRuntime) -> Result<(), Fail> {
    watch(&rt, rt.alloc(), Operation::Support)
}
