//! The families of no operand.

ghost use Rattle.std.specs.Prelude.{◌≡◌, IfOk, Ok};
ghost use Rattle.edge_bits.specs.Permanent.{base_edge, empty_edge};
ghost use Rattle.edge_bits.specs.declared.edges.Kind.TheVariants.{Zdd};
ghost use Rattle.function_laws.specs.Families.{base as base_of, empty as empty_of, single as single_of};
ghost use Rattle.node_store.specs.Operations.{Calls, halts};
ghost use Rattle.node_store.specs.Views.{Denotes, Kept};
ghost use Rattle.zdd_ops.specs.Elements.{IsElement, value_of_single};

use edge_bits::{Edge, FIRST_ELEMENT};
use node_store::{Grow, Stop, tell_permanent};

/// The family without members. It makes no node and is never refused.
pub fn empty<G: Grow>(store: &mut G) -> Result<Edge, Stop>
    ensures kept { Kept (G.view store.old) (G.view store.new) }
    ensures room { (G.view store.new).room ≡ (G.view store.old).room }
    ensures ok { result ≡ Ok empty_edge }
    ensures empty { IfOk result (λ e. Denotes Zdd (G.view store.new) e empty_of) }
{
    tell_permanent(store);
    Ok(Edge::empty_family())
}

/// The family whose one member has no element. It makes no node and is never refused.
pub fn base<G: Grow>(store: &mut G) -> Result<Edge, Stop>
    ensures kept { Kept (G.view store.old) (G.view store.new) }
    ensures room { (G.view store.new).room ≡ (G.view store.old).room }
    ensures ok { result ≡ Ok base_edge }
    ensures base { IfOk result (λ e. Denotes Zdd (G.view store.new) e base_of) }
{
    tell_permanent(store);
    Ok(Edge::base_family())
}

/// The family whose one member has the element, and no other. What it stores is that family.
pub fn single<G: Grow>(store: &mut G, e: u32) -> Result<Edge, Stop>
    requires { IsElement (G.view store.old) e }
    ensures { Calls Zdd (single_of e) (value_of_single e) (G.view store.old) (G.view store.new) (halts result) }
{
    tell_permanent(store);
    store.make(FIRST_ELEMENT + e, Edge::base_family(), Edge::empty_family())
}
