//! The operations on a stack that is handed in, for runs within other operators.

ghost use Rattle.std.specs.Prelude.{◌≡◌, ◌*◌, ◌≤◌, ◌&&◌, ◌||◌, not};
ghost use Rattle.edge_bits.specs.declared.edges.Kind.TheVariants.{Zdd};
ghost use Rattle.function_laws.specs.Families.{change as change_of, diff as diff_of, meet as meet_of, union as union_of};
ghost use Rattle.node_store.specs.Operations.{Runs, halts};
ghost use Rattle.node_store.specs.Views.{AreTwo, Is, IsVariable, Permanent, family_at};
ghost use Rattle.node_store.specs.Two.{value_of_two};
ghost use Rattle.zdd_ops.specs.Products.{product_at, product_work};
ghost use Rattle.zdd_ops.specs.Quotients.{quotient_at, quotient_work};
ghost use Rattle.zdd_ops.specs.Rooms.{KeepsRoom};
ghost use Rattle.zdd_ops.specs.Subsets.{subset_at, subset_work};

use crate::products::Multiplication;
use crate::quotients::Division;
use crate::sets::{Meeting, Removing, Uniting};
use crate::subsets::{ByElement, OneElement, Standing, Toggled, place};
use edge_bits::Edge;
use node_store::binary::Binary;
use node_store::evaluate::evaluate;
use node_store::operator::{Task, without_overflow};
use node_store::pointwise::place_by_place;
use node_store::remembering::Remembering;
use node_store::{Grow, Stack, Stop};

/// The union of two families. It asks for as many free frames as there are elements.
pub fn union<G: Grow>(store: &mut G, stack: &mut Stack, p: Edge, q: Edge) -> Result<Edge, Stop>
    requires operands { AreTwo Zdd (G.view store.old) p q }
    requires permanent { Permanent (G.view store.old) }
    requires room { (G.view store.old).elements ≤ stack.old.free }
    ensures runs { Runs Zdd (union_of (family_at (G.view store.old) p) (family_at (G.view store.old) q)) (value_of_two Zdd (λ a b. a || b) p q (G.view store.old)) (G.view store.old) (G.view store.new) (halts result) }
    ensures stack { stack.new ≡ stack.old }
{
    without_overflow(place_by_place(store, stack, Uniting, p, q))
}

/// What two families have in common. It asks for as many free frames as there are elements.
pub fn meet<G: Grow>(store: &mut G, stack: &mut Stack, p: Edge, q: Edge) -> Result<Edge, Stop>
    requires operands { AreTwo Zdd (G.view store.old) p q }
    requires permanent { Permanent (G.view store.old) }
    requires room { (G.view store.old).elements ≤ stack.old.free }
    ensures runs { Runs Zdd (meet_of (family_at (G.view store.old) p) (family_at (G.view store.old) q)) (value_of_two Zdd (λ a b. a && b) p q (G.view store.old)) (G.view store.old) (G.view store.new) (halts result) }
    ensures stack { stack.new ≡ stack.old }
{
    without_overflow(place_by_place(store, stack, Meeting, p, q))
}

/// The members of the first family that the second lacks. It asks for as many free frames as there are elements.
pub fn diff<G: Grow>(store: &mut G, stack: &mut Stack, p: Edge, q: Edge) -> Result<Edge, Stop>
    requires operands { AreTwo Zdd (G.view store.old) p q }
    requires permanent { Permanent (G.view store.old) }
    requires room { (G.view store.old).elements ≤ stack.old.free }
    ensures runs { Runs Zdd (diff_of (family_at (G.view store.old) p) (family_at (G.view store.old) q)) (value_of_two Zdd (λ a b. a && not b) p q (G.view store.old)) (G.view store.old) (G.view store.new) (halts result) }
    ensures stack { stack.new ≡ stack.old }
{
    without_overflow(place_by_place(store, stack, Removing, p, q))
}

/// The members of a family with the element of this variable number toggled in each. It asks for as many free frames as there are elements, and uses the table of answers where the family has nodes above the element.
pub fn change<G: Grow>(store: &mut G, stack: &mut Stack, p: Edge, var: u32) -> Result<Edge, Stop>
    requires family { Is Zdd (G.view store.old) p }
    requires element { IsVariable Zdd (G.view store.old) var }
    requires permanent { Permanent (G.view store.old) }
    requires room { (G.view store.old).elements ≤ stack.old.free }
    ensures runs { Runs Zdd (subset_at change_of var (G.view store.old) p) (subset_work change_of var p (G.view store.old)) (G.view store.old) (G.view store.new) (halts result) }
    ensures scratch { KeepsRoom stack.old stack.new }
{
    if let Standing::Here(hi, lo) = place(store, p, var) {
        // Nothing stands above the element, so the call needs no table.
        return Toggled.answer(store, var, hi, lo);
    }
    stack.clear_table();
    let op = OneElement {
        op: Toggled,
        family: p,
        element: var,
    };
    without_overflow(evaluate(store, stack, &Remembering(op), Task::two(p, p)))
}

/// The unions of a member of the one family and one of the other. It asks for twice as many free frames as there are elements: one for the parts of a product at an element, and one for a union within.
pub fn product<G: Grow>(store: &mut G, stack: &mut Stack, p: Edge, q: Edge) -> Result<Edge, Stop>
    requires operands { AreTwo Zdd (G.view store.old) p q }
    requires permanent { Permanent (G.view store.old) }
    requires room { 2 * (G.view store.old).elements ≤ stack.old.free }
    ensures runs { Runs Zdd (product_at (G.view store.old) (family_at (G.view store.old) p) (family_at (G.view store.old) q)) (product_work p q (G.view store.old)) (G.view store.old) (G.view store.new) (halts result) }
    ensures stack { stack.new ≡ stack.old }
{
    let op = Multiplication { p, q };
    without_overflow(evaluate(store, stack, &op, Task::two(p, q)))
}

/// The combinations that are disjoint from each member of the second family and give with it a member of the first; none where the second is empty. It asks for twice as many free frames as there are elements.
pub fn quotient<G: Grow>(store: &mut G, stack: &mut Stack, p: Edge, q: Edge) -> Result<Edge, Stop>
    requires operands { AreTwo Zdd (G.view store.old) p q }
    requires permanent { Permanent (G.view store.old) }
    requires room { 2 * (G.view store.old).elements ≤ stack.old.free }
    ensures runs { Runs Zdd (quotient_at (G.view store.old) (family_at (G.view store.old) p) (family_at (G.view store.old) q)) (quotient_work p q (G.view store.old)) (G.view store.old) (G.view store.new) (halts result) }
    ensures stack { stack.new ≡ stack.old }
{
    without_overflow(evaluate(store, stack, &Binary(Division { p, q }), Task::two(p, q)))
}
