//! The listing of a store's BDDs.

ghost use Rattle.std.specs.Prelude.{◌≡◌, All, IfOk, map};
ghost use Rattle.edge_bits.specs.declared.edges.Kind.TheVariants.{Bdd};
ghost use Rattle.diagram_dumps.specs.Listings.{IsListing};
ghost use Rattle.node_store.specs.Views.{Is, bdd_at};
ghost use Rattle.node_slots.specs.Stores.{IsStore, plain_view};

use crate::walk::Walk;
use diagram_dumps::Listing;
use edge_bits::{Edge, List as Elements, Memory};
use node_slots::PlainStore;
use std::alloc::Global;

/// The variables of a store from the top.
fn order_of(alloc: Global, store: &PlainStore) -> Result<Elements<u32>, Memory>
    requires { IsStore store.now }
    ensures { IfOk result (λ order. order ≡ store.now.variables_at) }
{
    let mut order = Elements::new(alloc);
    for level in 0..store.vars() {
        order.push(store.var_at(level))?;
    }
    Ok(order)
}

/// The nodes of some BDDs of a store, under its order of variables: each node once, behind its then child and its else child.
pub fn list(alloc: Global, store: &PlainStore, edges: &[Edge]) -> Result<Listing, Memory>
    requires { All (Is Bdd (plain_view store.now)) edges.now }
    ensures { IfOk result (IsListing store.now.variables_at (map (bdd_at (plain_view store.now)) edges.now)) }
{
    let mut walk = Walk::new(alloc, store.limit())?;
    let order = order_of(alloc, store)?;
    let mut roots = Elements::new(alloc);
    for edge in edges {
        walk.walk_from(store, edge.index())?;
        roots.push(walk.index_of(*edge))?;
    }
    let Walk { lines, .. } = walk;
    Ok(Listing {
        order,
        nodes: lines,
        roots,
    })
}
