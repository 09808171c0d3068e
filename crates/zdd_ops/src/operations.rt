//! The operations as they are called, in the scratch that the store lends.

ghost use Rattle.std.specs.Prelude.{◌+◌, ◌^◌, ◌&&◌, ◌||◌, not, IfOk};
ghost use Rattle.edge_bits.specs.Permanent.{first_element};
ghost use Rattle.edge_bits.specs.declared.edges.Kind.TheVariants.{Zdd};
ghost use Rattle.function_laws.specs.Families.{change as change_of, diff as diff_of, meet as meet_of, product as product_of, quotient as quotient_of, subset0 as subset0_of, subset1 as subset1_of, union as union_of};
ghost use Rattle.function_laws.specs.Products.{IsProduct, IsQuotient};
ghost use Rattle.node_store.specs.Operations.{Calls, halts};
ghost use Rattle.node_store.specs.Two.{value_of_two};
ghost use Rattle.node_store.specs.Views.{AreTwo, Is, family_at};
ghost use Rattle.zdd_ops.specs.Elements.{IsElement};
ghost use Rattle.zdd_ops.specs.Products.{product_work};
ghost use Rattle.zdd_ops.specs.Quotients.{quotient_work};
ghost use Rattle.zdd_ops.specs.Subsets.{subset_work};

use crate::products::Multiplication;
use crate::quotients::Division;
use crate::sets::{Meeting, Removing, Uniting};
use crate::subsets::{OneElement, Toggled, With, Without};
use edge_bits::{Edge, FIRST_ELEMENT};
use node_store::operator::without_overflow;
use node_store::pointwise::TwoOperands;
use node_store::scratch::in_scratch;
use node_store::{Grow, Stop};

/// The members of either family. What it stores are parts of the union by the first elements of the order.
pub fn union<G: Grow>(store: &mut G, p: Edge, q: Edge) -> Result<Edge, Stop>
    requires { AreTwo Zdd (G.view store.old) p q }
    ensures { Calls Zdd (union_of (family_at (G.view store.old) p) (family_at (G.view store.old) q)) (value_of_two Zdd (λ a b. a || b) p q (G.view store.old)) (G.view store.old) (G.view store.new) (halts result) }
{
    let call = TwoOperands {
        op: Uniting,
        f: p,
        g: q,
    };
    without_overflow(in_scratch(store, call))
}

/// The members of both families. What it stores are parts of that family by the first elements of the order.
pub fn meet<G: Grow>(store: &mut G, p: Edge, q: Edge) -> Result<Edge, Stop>
    requires { AreTwo Zdd (G.view store.old) p q }
    ensures { Calls Zdd (meet_of (family_at (G.view store.old) p) (family_at (G.view store.old) q)) (value_of_two Zdd (λ a b. a && b) p q (G.view store.old)) (G.view store.old) (G.view store.new) (halts result) }
{
    let call = TwoOperands {
        op: Meeting,
        f: p,
        g: q,
    };
    without_overflow(in_scratch(store, call))
}

/// The members of the first family that the second lacks. What it stores are parts of that family by the first elements of the order.
pub fn diff<G: Grow>(store: &mut G, p: Edge, q: Edge) -> Result<Edge, Stop>
    requires { AreTwo Zdd (G.view store.old) p q }
    ensures { Calls Zdd (diff_of (family_at (G.view store.old) p) (family_at (G.view store.old) q)) (value_of_two Zdd (λ a b. a && not b) p q (G.view store.old)) (G.view store.old) (G.view store.new) (halts result) }
{
    let call = TwoOperands {
        op: Removing,
        f: p,
        g: q,
    };
    without_overflow(in_scratch(store, call))
}

/// The members of a family that have the element, without it (Minato 1993). What it stores are parts of that family by the first elements of the order.
pub fn subset1<G: Grow>(store: &mut G, p: Edge, e: u32) -> Result<Edge, Stop>
    requires family { Is Zdd (G.view store.old) p }
    requires element { IsElement (G.view store.old) e }
    ensures { Calls Zdd (subset1_of (family_at (G.view store.old) p) e) (subset_work subset1_of (first_element + e) p (G.view store.old)) (G.view store.old) (G.view store.new) (halts result) }
{
    let call = OneElement {
        op: With,
        family: p,
        element: FIRST_ELEMENT + e,
    };
    without_overflow(in_scratch(store, call))
}

/// The members of a family that lack the element (Minato 1993). What it stores are parts of that family by the first elements of the order.
pub fn subset0<G: Grow>(store: &mut G, p: Edge, e: u32) -> Result<Edge, Stop>
    requires family { Is Zdd (G.view store.old) p }
    requires element { IsElement (G.view store.old) e }
    ensures { Calls Zdd (subset0_of (family_at (G.view store.old) p) e) (subset_work subset0_of (first_element + e) p (G.view store.old)) (G.view store.old) (G.view store.new) (halts result) }
{
    let call = OneElement {
        op: Without,
        family: p,
        element: FIRST_ELEMENT + e,
    };
    without_overflow(in_scratch(store, call))
}

/// The members of a family with the element toggled in each (Minato 1993). What it stores are parts of that family by the first elements of the order.
pub fn change<G: Grow>(store: &mut G, p: Edge, e: u32) -> Result<Edge, Stop>
    requires family { Is Zdd (G.view store.old) p }
    requires element { IsElement (G.view store.old) e }
    ensures { Calls Zdd (change_of (family_at (G.view store.old) p) e) (subset_work change_of (first_element + e) p (G.view store.old)) (G.view store.old) (G.view store.new) (halts result) }
{
    let call = OneElement {
        op: Toggled,
        family: p,
        element: FIRST_ELEMENT + e,
    };
    without_overflow(in_scratch(store, call))
}

/// The family of all unions of a member of the one family and one of the other. What it stores are parts, by the first elements of the order, of that value for any such parts of the two families, and of the unions of two of these.
pub fn product<G: Grow>(store: &mut G, p: Edge, q: Edge) -> Result<Edge, Stop>
    requires { AreTwo Zdd (G.view store.old) p q }
    ensures calls { Calls Zdd (product_of (2 ^ (G.view store.old).elements) (family_at (G.view store.old) p) (family_at (G.view store.old) q)) (product_work p q (G.view store.old)) (G.view store.old) (G.view store.new) (halts result) }
    ensures members { IfOk result (λ e. IsProduct (family_at (G.view store.old) p) (family_at (G.view store.old) q) (family_at (G.view store.new) e)) }
{
    without_overflow(in_scratch(store, Multiplication { p, q }))
}

/// The family of the combinations that are disjoint from each member of the second family and give with it a member of the first; it is empty where the second is. What it stores are parts, by the first elements of the order, of that value for any such parts of the two families.
pub fn quotient<G: Grow>(store: &mut G, p: Edge, q: Edge) -> Result<Edge, Stop>
    requires { AreTwo Zdd (G.view store.old) p q }
    ensures calls { Calls Zdd (quotient_of (2 ^ (G.view store.old).elements) (family_at (G.view store.old) p) (family_at (G.view store.old) q)) (quotient_work p q (G.view store.old)) (G.view store.old) (G.view store.new) (halts result) }
    ensures members { IfOk result (λ e. IsQuotient (family_at (G.view store.old) p) (family_at (G.view store.old) q) (family_at (G.view store.new) e)) }
{
    without_overflow(in_scratch(store, Division { p, q }))
}
