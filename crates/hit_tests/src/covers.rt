//! Covers and their functions: products of literals of the 32 variables with an even number, whose parts are two at each variable, and the cover that is found of a parity.

ghost use Rattle.std.specs.Prelude.{◌≡◌, ◌<◌, IfOk};
ghost use Rattle.edge_bits.specs.declared.edges.Kind.TheVariants.{Zdd};
ghost use Rattle.node_store.specs.Views.{AreTwo, Grown, Is};

use crate::diagrams::{Pair, parity};
use crate::watched::Watched;
use cover_isop::{cover_of, isop};
use edge_bits::Edge;
use node_store::{Grow, Stop};
use std::process::Abort;
use std::test::Fail;
use zdd_ops::{base, change, empty, union};

/// The products of the first family with the complement of a variable, and those of the second with the variable.
fn with_literal<G: Grow>(store: &mut G, p: Edge, q: Edge, var: u32) -> Result<Edge, Stop>
    requires elements { (G.view store.old).elements ≡ 128 }
    requires var { var < 64 }
    requires two { AreTwo Zdd (G.view store.old) p q }
    ensures grown { Grown (G.view store.old) (G.view store.new) }
    ensures is { IfOk result (Is Zdd (G.view store.new)) }
{
    let first = change(store, p, 2 * var + 1)?;
    let second = change(store, q, 2 * var)?;
    union(store, first, second)
}

/// The products in which an even and an odd number of variables hold, with one variable more.
fn extended<G: Grow>(store: &mut G, products: Pair, var: u32) -> Result<Pair, Stop>
    requires elements { (G.view store.old).elements ≡ 128 }
    requires var { var < 64 }
    requires two { AreTwo Zdd (G.view store.old) products.even products.odd }
    ensures grown { Grown (G.view store.old) (G.view store.new) }
    ensures two { IfOk result (λ p. AreTwo Zdd (G.view store.new) p.even p.odd) }
{
    let even = with_literal(store, products.even, products.odd, var)?;
    let odd = with_literal(store, products.odd, products.even, var)?;
    Ok(Pair { even, odd })
}

/// The products of all literals of the 32 variables with an even number in which an even and an odd number of these hold.
fn products<G: Grow>(store: &mut G) -> Result<Pair, Stop>
    requires { (G.view store.old).elements ≡ 128 }
    ensures grown { Grown (G.view store.old) (G.view store.new) }
    ensures two { IfOk result (λ p. AreTwo Zdd (G.view store.new) p.even p.odd) }
{
    let mut pair = Pair {
        even: base(store)?,
        odd: empty(store)?,
    };
    for i in 0..32u32 {
        pair = extended(store, pair, 62 - 2 * i)?;
    }
    Ok(pair)
}

/// The functions of both covers, of which one holds where the other doesn't.
fn cover<G: Grow>(rt: &impl Abort, store: &mut G) -> Result<(), Fail>
    requires vars { (G.view store.old).vars ≡ 64 }
    requires elements { (G.view store.old).elements ≡ 128 }
{
    let Pair { even, odd } = products(store)?;
    let parity = cover_of(store, odd, 64)?;
    assert!(rt; cover_of(store, even, 64)? == parity.flip());
    Ok(())
}

#[test]
fn cover_of_remembers(rt: HostRuntime) -> Result<(), Fail> {
    let mut store = Watched::new(&rt, rt.alloc(), 64, 128)?;
    cover(&rt, &mut store)
}

/// The cover of a parity of 32 variables, which has 2^31 products, and its function, which is that parity again.
fn between<G: Grow>(rt: &impl Abort, store: &mut G) -> Result<(), Fail>
    requires vars { (G.view store.old).vars ≡ 64 }
    requires elements { (G.view store.old).elements ≡ 128 }
{
    let even = parity(store, 0)?;
    let products = isop(store, even, even)?;
    assert!(rt; cover_of(store, products, 64)? == even);
    Ok(())
}

#[test]
fn isop_remembers(rt: HostRuntime) -> Result<(), Fail> {
    let mut store = Watched::new(&rt, rt.alloc(), 64, 128)?;
    between(&rt, &mut store)
}
