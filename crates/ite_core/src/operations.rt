//! The operations as they are called, in the scratch that the store lends.

ghost use Rattle.std.specs.Prelude.{◌≡◌, ◌≤◌, ◌<◌, ◌&&◌, ◌||◌, ◌↔◌, ◌⊎◌, IfOk, IsErr, Ok, true};
ghost use Rattle.edge_bits.specs.declared.edges.Kind.TheVariants.{Bdd};
ghost use Rattle.function_laws.specs.Values.{conjunction, differs, disjunction, exclusive, negation};
ghost use Rattle.node_store.specs.Edges.{flip_if as flipped_edge};
ghost use Rattle.node_store.specs.Memo.{Implies};
ghost use Rattle.node_store.specs.Operations.{Calls, halts};
ghost use Rattle.node_store.specs.Stacks.{levels_in};
ghost use Rattle.node_store.specs.Three.{AreThree, ite_at, value_of_three};
ghost use Rattle.node_store.specs.Two.{value_of_two};
ghost use Rattle.node_store.specs.Views.{AreTwo, Denotes, Is, IsVariable, Kept, Permanent, bdd_at};
ghost use Rattle.ite_core.specs.Cofactors.{cofactor_at, value_of_cofactor};

use crate::cofactors::Cofactor;
use crate::conjunction::Conjunction;
use crate::nested;
use crate::selection::Selection;
use edge_bits::{Edge, Kind, Memory};
use node_store::binary::flip_if;
use node_store::conditional::ThreeOperands;
use node_store::operator::without_overflow;
use node_store::pointwise::TwoOperands;
use node_store::scratch::in_scratch;
use node_store::{Grow, Stack, Stop};

/// The complement of a function. It makes no node and is never refused.
pub fn not<G: Grow>(_store: &mut G, f: Edge) -> Result<Edge, Stop>
    requires { Is Bdd (G.view _store.old) f }
    ensures kept { Kept (G.view _store.old) (G.view _store.new) }
    ensures room { (G.view _store.old).room ≤ (G.view _store.new).room }
    ensures ok { result ≡ Ok (flipped_edge true f) }
    ensures not { IfOk result (λ e. Denotes Bdd (G.view _store.new) e (negation (bdd_at (G.view _store.old) f))) }
{
    Ok(flip_if(f, true))
}

/// The conjunction of two functions. What it stores are parts of the conjunction by the first variables of the order, up to complement.
pub fn and<G: Grow>(store: &mut G, f: Edge, g: Edge) -> Result<Edge, Stop>
    requires { AreTwo Bdd (G.view store.old) f g }
    ensures { Calls Bdd (conjunction (bdd_at (G.view store.old) f) (bdd_at (G.view store.old) g)) (value_of_two Bdd (λ a b. a && b) f g (G.view store.old)) (G.view store.old) (G.view store.new) (halts result) }
{
    let op = Conjunction;
    without_overflow(in_scratch(store, TwoOperands { op, f, g }))
}

/// The disjunction of two functions. What it stores are parts of the disjunction by the first variables of the order, up to complement.
pub fn or<G: Grow>(store: &mut G, f: Edge, g: Edge) -> Result<Edge, Stop>
    requires { AreTwo Bdd (G.view store.old) f g }
    ensures { Calls Bdd (disjunction (bdd_at (G.view store.old) f) (bdd_at (G.view store.old) g)) (value_of_two Bdd (λ a b. a || b) f g (G.view store.old)) (G.view store.old) (G.view store.new) (halts result) }
{
    // By complements, so that a conjunction and a disjunction meet under one key.
    let not_f = flip_if(f, true);
    let not_g = flip_if(g, true);
    let both = and(store, not_f, not_g)?;
    Ok(flip_if(both, true))
}

/// The second function where the first holds, and the third elsewhere. What it stores are parts of that function by the first variables of the order, up to complement.
pub fn ite<G: Grow>(store: &mut G, f: Edge, g: Edge, h: Edge) -> Result<Edge, Stop>
    requires { AreThree Bdd (G.view store.old) f g h }
    ensures { Calls Bdd (ite_at Bdd (G.view store.old) f g h) (value_of_three Bdd f g h (G.view store.old)) (G.view store.old) (G.view store.new) (halts result) }
{
    let op = Selection;
    without_overflow(in_scratch(store, ThreeOperands { op, f, g, h }))
}

/// The function that holds where just one of the two does. What it stores are parts of that function by the first variables of the order, up to complement.
pub fn xor<G: Grow>(store: &mut G, f: Edge, g: Edge) -> Result<Edge, Stop>
    requires { AreTwo Bdd (G.view store.old) f g }
    ensures { Calls Bdd (exclusive (bdd_at (G.view store.old) f) (bdd_at (G.view store.old) g)) (value_of_two Bdd differs f g (G.view store.old)) (G.view store.old) (G.view store.new) (halts result) }
{
    let not_g = flip_if(g, true);
    ite(store, f, not_g, g)
}

/// A function with a variable set to this bit. What it stores are parts of that function by the first variables of the order, up to complement.
pub fn cofactor<G: Grow>(store: &mut G, f: Edge, var: u32, bit: bool) -> Result<Edge, Stop>
    requires operand { Is Bdd (G.view store.old) f }
    requires in_range { IsVariable Bdd (G.view store.old) var }
    ensures { Calls Bdd (cofactor_at (G.view store.old) f var bit) (value_of_cofactor f var bit (G.view store.old)) (G.view store.old) (G.view store.new) (halts result) }
{
    without_overflow(in_scratch(store, Cofactor { f, var, bit }))
}

/// Whether the second function is true wherever the first is. It makes no node, so that only want of memory leaves it without an answer.
pub fn leq<G: Grow>(store: &mut G, f: Edge, g: Edge) -> Result<bool, Memory>
    requires { AreTwo Bdd (G.view store.old) f g }
    ensures kept { Kept (G.view store.old) (G.view store.new) }
    ensures room { (G.view store.old).room ≤ (G.view store.new).room }
    ensures leq { IfOk result (λ answer. (answer ≡ true) ↔ Implies (bdd_at (G.view store.old) f) (bdd_at (G.view store.old) g)) }
    ensures memory { IsErr result → ((G.view store.old).room < (G.view store.old).vars) ⊎ ((G.view store.old).may_want_memory ≡ true) }
{
    let mut stack = store.take_scratch();
    let levels = store.levels(Kind::Bdd);
    let outcome = leq_with_room(store, &mut stack, levels, f, g);
    store.give_scratch(stack);
    outcome
}

/// Makes the scratch large enough for the levels, and runs.
fn leq_with_room<G: Grow>(
    store: &mut G,
    stack: &mut Stack,
    levels: u32,
    f: Edge,
    g: Edge,
) -> Result<bool, Memory>
    requires operands { AreTwo Bdd (G.view store.old) f g }
    requires permanent { Permanent (G.view store.old) }
    requires levels { levels ≡ (G.view store.old).vars }
    ensures kept { Kept (G.view store.old) (G.view store.new) }
    ensures leq { IfOk result (λ answer. (answer ≡ true) ↔ Implies (bdd_at (G.view store.old) f) (bdd_at (G.view store.old) g)) }
    ensures memory { IsErr result → (levels_in stack.old < levels) ⊎ ((G.view store.old).may_want_memory ≡ true) }
    ensures frames { stack.new.frames ≡ stack.old.frames }
    ensures room { levels_in stack.old ≤ levels_in stack.new }
{
    stack.prepare(levels)?;
    nested::leq(store, stack, f, g)
}
