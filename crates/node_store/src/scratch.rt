//! Operations in the scratch that the store lends.

ghost use Rattle.std.specs.Prelude.{◌≡◌, ◌<◌, ◌≤◌};
ghost use Rattle.node_store.specs.Operations.{CallsTo, Serves};
ghost use Rattle.node_store.specs.Stacks.{levels_in};
ghost use Rattle.node_store.specs.Views.{Permanent, levels as levels_of};

use crate::grow::{Edge, Grow, Kind};
use crate::operator::Halt;
use crate::stack::Stack;

/// An operation on operands of its own, as a public call runs it.
pub trait Operation<G: Grow> {
    ghost use Rattle.std.specs.Prelude.{◌≡◌, ◌≤◌};
    ghost use Rattle.edge_bits.specs.declared.edges.Edge.{Edge};
    ghost use Rattle.edge_bits.specs.declared.edges.Kind.{Kind};
    ghost use Rattle.function_laws.specs.Kinds.{Denoted};
    ghost use Rattle.node_store.specs.Operations.{RunsTo};
    ghost use Rattle.node_store.specs.Stacks.{levels_in};
    ghost use Rattle.node_store.specs.Remembering.{IsBlank};
    ghost use Rattle.node_store.specs.Views.{View, Grown, Permanent, levels as levels_of};

    /// The kind of the answer.
    ghost kind: { Kind };

    /// What is asked of the operands.
    ghost asks: { Self → View → Type 0 };

    /// The edge is an answer in the second view of what is asked in the first.
    ghost answers: { Self → View → View → Edge → Type 0 };

    /// The answer is out of range.
    ghost overflows: { Self → View → Type 0 };

    /// What it stores are parts of these functions.
    ghost work: { Self → View → Denoted → Type 0 };

    /// The kind of the answer.
    fn answer_kind(&self) -> Kind
        ensures { result ≡ kind };

    /// Runs it on a stack with room for the levels of its kind.
    fn run(self, store: &mut G, stack: &mut Stack) -> Result<Edge, Halt>
        requires asks { asks self (G.view store.old) }
        requires permanent { Permanent (G.view store.old) }
        requires room { levels_of kind (G.view store.old) ≤ levels_in stack.old }
        requires blank { IsBlank stack.old.answers }
        ensures runs { RunsTo (answers self (G.view store.old) (G.view store.new)) (overflows self (G.view store.old)) (work self (G.view store.old)) (G.view store.old) (G.view store.new) result }
        ensures frames { stack.new.frames ≡ stack.old.frames }
        ensures room { levels_in stack.old ≤ levels_in stack.new };

    ghost asks_stay: { (o : Self) (v w : View) → Grown v w → asks o v → asks o w };

    ghost answers_last: { (o : Self) (u v w x : View) (e : Edge) → Grown u v → Grown w x → asks o u → answers o v w e → answers o u x e };

    ghost overflows_back: { (o : Self) (v w : View) → Grown v w → asks o v → overflows o w → overflows o v };

    ghost work_back: { (o : Self) (v w : View) (f : Denoted) → Grown v w → asks o v → work o w f → work o v f };
}

/// The operation on a stack that is made large enough for so many levels.
fn run_prepared<G: Grow, O: Operation<G> + Drop>(
    store: &mut G,
    stack: &mut Stack,
    levels: u32,
    op: O,
) -> Result<Edge, Halt>
    requires asks { O.asks op (G.view store.old) }
    requires permanent { Permanent (G.view store.old) }
    requires levels { levels ≡ levels_of O.kind (G.view store.old) }
    ensures serves { Serves (O.answers op (G.view store.old) (G.view store.new)) (O.overflows op (G.view store.old)) (O.work op (G.view store.old)) (levels_in stack.old < levels) (levels_in stack.old ≤ levels_in stack.new) (G.view store.old) (G.view store.new) result }
    ensures frames { stack.new.frames ≡ stack.old.frames }
{
    if stack.prepare(levels).is_err() {
        return Err(Halt::Memory);
    }
    stack.clear_table();
    op.run(store, stack)
}

/// The operation, in the scratch that the store lends, which is made large enough and given back.
pub fn in_scratch<G: Grow, O: Operation<G> + Drop>(store: &mut G, op: O) -> Result<Edge, Halt>
    requires { O.asks op (G.view store.old) }
    ensures { CallsTo O.kind (O.answers op (G.view store.old) (G.view store.new)) (O.overflows op (G.view store.old)) (O.work op (G.view store.old)) (G.view store.old) (G.view store.new) result }
{
    let mut stack = store.take_scratch();
    let levels = store.levels(op.answer_kind());
    let outcome = run_prepared(store, &mut stack, levels, op);
    store.give_scratch(stack);
    outcome
}
