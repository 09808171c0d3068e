//! The evaluator.

ghost use Rattle.std.specs.Prelude.{◌≡◌, ℕ, ◌+◌, ◌<◌, ◌≤◌, IfOk, IsErrOf, take, length, true};
ghost use Rattle.node_store.specs.Views.{Rose};
ghost use Rattle.node_store.specs.States.{state_of};
ghost use Rattle.node_store.specs.Stacks.{room_of};

use crate::grow::{Edge, Grow};
use crate::operator::{Halt, Next, Operator, Task, Turn};
use crate::stack::Stack;

/// A task that is to be computed, or the answer of the one that was.
#[derive(Clone, Copy, PartialEq, Eq, Drop)]
enum Step {
    Ask(Task),
    Answer(Edge),
}

/// The answer of a task, computed with a stack of its own in place of calls of itself. The frames of the stack stay as they are.
pub fn evaluate<G: Grow, O: Operator<G>>(
    store: &mut G,
    stack: &mut Stack,
    op: &O,
    task: Task,
) -> Result<Edge, Halt>
    requires due { O.due op.now (state_of (G.view store.old) stack.old) task }
    requires room { O.depth op.now (state_of (G.view store.old) stack.old) task + O.extra op.now (state_of (G.view store.old) stack.old) ≤ stack.old.free }
    ensures moved { O.moves op.now (state_of (G.view store.old) stack.old) (state_of (G.view store.new) stack.new) }
    ensures answer { IfOk result (O.answers op.now (state_of (G.view store.new) stack.new) task) }
    ensures overflow { IsErrOf result Halt.Overflow → O.overflows op.now (state_of (G.view store.new) stack.new) task }
    ensures memory { IsErrOf result Halt.Memory → (G.view store.old).may_want_memory ≡ true }
    ensures due { IsErrOf result Halt.Full → O.refused op.now (state_of (G.view store.new) stack.new) }
    ensures full { IsErrOf result Halt.Full → Rose (G.view store.old) (G.view store.new) }
    ensures frames { stack.new.frames ≡ stack.old.frames }
    ensures free { stack.new.free ≡ stack.old.free }
{
    let base = stack.len();
    let outcome = run(store, stack, op, task);
    stack.truncate(base);
    outcome
}

/// The same, which leaves frames above the old ones where it stops early. `start` is called at one place, so that a compiler can
/// build the frame where it stands on the stack.
fn run<G: Grow, O: Operator<G>>(
    store: &mut G,
    stack: &mut Stack,
    op: &O,
    task: Task,
) -> Result<Edge, Halt>
    requires due { O.due op.now (state_of (G.view store.old) stack.old) task }
    requires room { O.depth op.now (state_of (G.view store.old) stack.old) task + O.extra op.now (state_of (G.view store.old) stack.old) ≤ stack.old.free }
    ensures moved { O.moves op.now (state_of (G.view store.old) stack.old) (state_of (G.view store.new) stack.new) }
    ensures answer { IfOk result (O.answers op.now (state_of (G.view store.new) stack.new) task) }
    ensures overflow { IsErrOf result Halt.Overflow → O.overflows op.now (state_of (G.view store.new) stack.new) task }
    ensures memory { IsErrOf result Halt.Memory → (G.view store.old).may_want_memory ≡ true }
    ensures due { IsErrOf result Halt.Full → O.refused op.now (state_of (G.view store.new) stack.new) }
    ensures full { IsErrOf result Halt.Full → Rose (G.view store.old) (G.view store.new) }
    ensures frames { take (length stack.old.frames) stack.new.frames ≡ stack.old.frames }
    ensures room { room_of stack.new ≡ room_of stack.old }
{
    let base = stack.len();
    let mut step = Step::Ask(task);
    'steps: loop {
        match step {
            Step::Ask(task) => match op.start(store, stack, task)? {
                Next::Done(edge) => step = Step::Answer(edge),
                Next::Call(frame, child) => {
                    stack.push(frame);
                    step = Step::Ask(child);
                }
            },
            Step::Answer(edge) => {
                if stack.len() == base {
                    return Ok(edge);
                }
                let Some(frame) = stack.top() else {
                    return Ok(edge);
                };
                match op.resume(store, stack, frame, edge)? {
                    Turn::Done(edge) => {
                        stack.drop_top();
                        step = Step::Answer(edge);
                    }
                    Turn::Call(wait, child) => {
                        stack.wait_for(wait);
                        step = Step::Ask(child);
                    }
                }
            }
        }
    }
}
