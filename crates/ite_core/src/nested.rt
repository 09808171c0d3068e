//! The operations on a stack that is handed in, for runs within other operators. They ask for as many free frames as there are variables.

ghost use Rattle.std.specs.Prelude.{◌≡◌, ◌≤◌, ◌&&◌, ◌||◌, ◌↔◌, IfOk, IsErr, true};
ghost use Rattle.edge_bits.specs.declared.edges.Kind.TheVariants.{Bdd};
ghost use Rattle.function_laws.specs.Values.{conjunction, differs, disjunction, exclusive};
ghost use Rattle.node_store.specs.Views.{AreTwo, Is, IsVariable, Kept, Permanent, bdd_at};
ghost use Rattle.node_store.specs.Memo.{Implies};
ghost use Rattle.node_store.specs.Operations.{Runs, halts};
ghost use Rattle.node_store.specs.Two.{value_of_two};
ghost use Rattle.node_store.specs.Three.{AreThree, ite_at, value_of_three};
ghost use Rattle.ite_core.specs.Cofactors.{cofactor_at, value_of_cofactor};

use crate::cofactors::instantiate;
use crate::conjunction::Conjunction;
use crate::implication::Implication;
use crate::selection::Selection;
use edge_bits::{Edge, Memory};
use node_store::binary::flip_if;
use node_store::conditional::if_then_else;
use node_store::evaluate::evaluate;
use node_store::operator::{Halt, Task, without_overflow};
use node_store::pointwise::place_by_place;
use node_store::{Grow, Stack, Stop};

/// The conjunction of two functions.
pub fn and<G: Grow>(store: &mut G, stack: &mut Stack, f: Edge, g: Edge) -> Result<Edge, Stop>
    requires operands { AreTwo Bdd (G.view store.old) f g }
    requires permanent { Permanent (G.view store.old) }
    requires room { (G.view store.old).vars ≤ stack.old.free }
    ensures runs { Runs Bdd (conjunction (bdd_at (G.view store.old) f) (bdd_at (G.view store.old) g)) (value_of_two Bdd (λ a b. a && b) f g (G.view store.old)) (G.view store.old) (G.view store.new) (halts result) }
    ensures stack { stack.new ≡ stack.old }
{
    without_overflow(place_by_place(store, stack, Conjunction, f, g))
}

/// The disjunction of two functions.
pub fn or<G: Grow>(store: &mut G, stack: &mut Stack, f: Edge, g: Edge) -> Result<Edge, Stop>
    requires operands { AreTwo Bdd (G.view store.old) f g }
    requires permanent { Permanent (G.view store.old) }
    requires room { (G.view store.old).vars ≤ stack.old.free }
    ensures runs { Runs Bdd (disjunction (bdd_at (G.view store.old) f) (bdd_at (G.view store.old) g)) (value_of_two Bdd (λ a b. a || b) f g (G.view store.old)) (G.view store.old) (G.view store.new) (halts result) }
    ensures stack { stack.new ≡ stack.old }
{
    // By complements, so that a conjunction and a disjunction meet under one key.
    let not_f = flip_if(f, true);
    let not_g = flip_if(g, true);
    let both = and(store, stack, not_f, not_g)?;
    Ok(flip_if(both, true))
}

/// The second function where the first holds, and the third elsewhere.
pub fn ite<G: Grow>(
    store: &mut G,
    stack: &mut Stack,
    f: Edge,
    g: Edge,
    h: Edge,
) -> Result<Edge, Stop>
    requires operands { AreThree Bdd (G.view store.old) f g h }
    requires permanent { Permanent (G.view store.old) }
    requires room { (G.view store.old).vars ≤ stack.old.free }
    ensures runs { Runs Bdd (ite_at Bdd (G.view store.old) f g h) (value_of_three Bdd f g h (G.view store.old)) (G.view store.old) (G.view store.new) (halts result) }
    ensures stack { stack.new ≡ stack.old }
{
    without_overflow(if_then_else(store, stack, Selection, f, g, h))
}

/// The function that holds where just one of the two does.
pub fn xor<G: Grow>(store: &mut G, stack: &mut Stack, f: Edge, g: Edge) -> Result<Edge, Stop>
    requires operands { AreTwo Bdd (G.view store.old) f g }
    requires permanent { Permanent (G.view store.old) }
    requires room { (G.view store.old).vars ≤ stack.old.free }
    ensures runs { Runs Bdd (exclusive (bdd_at (G.view store.old) f) (bdd_at (G.view store.old) g)) (value_of_two Bdd differs f g (G.view store.old)) (G.view store.old) (G.view store.new) (halts result) }
    ensures stack { stack.new ≡ stack.old }
{
    let not_g = flip_if(g, true);
    ite(store, stack, f, not_g, g)
}

/// A function with a variable set to this bit.
pub fn cofactor<G: Grow>(
    store: &mut G,
    stack: &mut Stack,
    f: Edge,
    var: u32,
    bit: bool,
) -> Result<Edge, Stop>
    requires operand { Is Bdd (G.view store.old) f }
    requires in_range { IsVariable Bdd (G.view store.old) var }
    requires permanent { Permanent (G.view store.old) }
    requires room { (G.view store.old).vars ≤ stack.old.free }
    ensures runs { Runs Bdd (cofactor_at (G.view store.old) f var bit) (value_of_cofactor f var bit (G.view store.old)) (G.view store.old) (G.view store.new) (halts result) }
    ensures stack { stack.new ≡ stack.old }
{
    without_overflow(instantiate(store, stack, f, var, bit))
}

/// Whether the second function is true wherever the first is. It makes no node.
pub fn leq<G: Grow>(store: &mut G, stack: &mut Stack, f: Edge, g: Edge) -> Result<bool, Memory>
    requires operands { AreTwo Bdd (G.view store.old) f g }
    requires permanent { Permanent (G.view store.old) }
    requires room { (G.view store.old).vars ≤ stack.old.free }
    ensures kept { Kept (G.view store.old) (G.view store.new) }
    ensures leq { IfOk result (λ answer. (answer ≡ true) ↔ Implies (bdd_at (G.view store.old) f) (bdd_at (G.view store.old) g)) }
    ensures memory { IsErr result → (G.view store.old).may_want_memory ≡ true }
    ensures stack { stack.new ≡ stack.old }
{
    match evaluate(store, stack, &Implication, Task::two(f, g)) {
        Ok(edge) => Ok(!edge.complement()),
        Err(Halt::Memory) => Err(Memory),
        Err(Halt::Full) => unreachable!(),
        Err(Halt::Overflow) => unreachable!(),
    }
}
