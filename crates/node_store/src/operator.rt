//! What an operator tells the evaluator.

ghost use Rattle.std.specs.Prelude.{◌≡◌, IsErrOf};
ghost use Rattle.node_store.specs.Operations.{halts};

use crate::grow::{Edge, Grow, Stop};
use crate::stack::Stack;

/// Why there is no answer.
#[derive(Debug, Clone, Copy, PartialEq, Eq, Drop)]
pub enum Halt {
    Memory,
    Full,
    Overflow,
}

impl From<Stop> for Halt {
    ghost use Rattle.node_store.specs.Halt.{halt_of};
    ghost use Rattle.std.specs.Prelude.{◌≡◌};

    ghost from_gives = { λ s h. h ≡ halt_of s };

    fn from(stop: Stop) -> Halt {
        match stop {
            Stop::Memory => Halt::Memory,
            Stop::Full => Halt::Full,
        }
    }
}

/// The answer of a call that is never out of range.
pub fn without_overflow(answer: Result<Edge, Halt>) -> Result<Edge, Stop>
    requires { IsErrOf answer Halt.Overflow → ⊥ }
    ensures { halts result ≡ answer }
{
    match answer {
        Ok(edge) => Ok(edge),
        Err(Halt::Memory) => Err(Stop::Memory),
        Err(Halt::Full) => Err(Stop::Full),
        Err(Halt::Overflow) => unreachable!(),
    }
}

/// The operands of one step of an operator; those that it lacks are any edge.
#[derive(Clone, Copy, PartialEq, Eq, Drop)]
pub struct Task {
    pub f: Edge,
    pub g: Edge,
    pub h: Edge,
}

impl Task {
    ghost use Rattle.std.specs.Prelude.{◌≡◌};
    ghost use Rattle.node_store.specs.Two.{IsOrderOf};

    /// Two operands, of which the first also stands for the third.
    pub fn two(f: Edge, g: Edge) -> Task
        ensures f { result.f ≡ f }
        ensures g { result.g ≡ g }
        ensures h { result.h ≡ f }
    {
        Task { f, g, h: f }
    }

    /// Two operands in one order, for an operator that takes them in either.
    pub fn ordered(f: Edge, g: Edge) -> Task
        ensures order { IsOrderOf f g result }
        ensures unused { result.h ≡ result.f }
    {
        if f.index() < g.index() {
            Task::two(f, g)
        } else {
            Task::two(g, f)
        }
    }
}

/// Which of one to four answers a frame waits for, with the answers that it has, and before the first the task of the second.
#[derive(Clone, Copy, PartialEq, Eq, Drop)]
pub enum Wait {
    Only,
    First(Task),
    Second(Edge),
    Third(Edge, Edge),
    Fourth(Edge, Edge, Edge),
}

/// A task whose parts are being computed.
#[derive(Clone, Copy, PartialEq, Eq, Drop)]
pub struct Frame {
    pub task: Task,
    pub var: u32,
    pub flip: bool,
    pub wait: Wait,
}

/// The scratch fills its unused places with it.
impl Default for Frame {
    fn default() -> Frame {
        let edge = Edge::truth(true);
        Frame {
            task: Task::two(edge, edge),
            var: 0,
            flip: false,
            wait: Wait::Only,
        }
    }
}

/// The first step of a task: its answer, or a frame for it with the first task for the frame to wait for.
#[derive(Clone, Copy, PartialEq, Eq, Drop)]
pub enum Next {
    Done(Edge),
    Call(Frame, Task),
}

/// The next step of a frame: the answer of its task, or what it waits for from now on, with the task of that.
#[derive(Clone, Copy, PartialEq, Eq, Drop)]
pub enum Turn {
    Done(Edge),
    Call(Wait, Task),
}

/// An operator, as the evaluator runs it.
pub trait Operator<G: Grow> {
    ghost use Rattle.std.specs.Prelude.{◌≡◌, ℕ, ◌+◌, ◌<◌, ◌≤◌, IfOk, IsErrOf, true};
    ghost use Rattle.node_store.specs.Views.{Rose};
    ghost use Rattle.node_store.specs.States.{State, state_of};
    ghost use Rattle.node_store.specs.Steps.{NextFor, FewerLeft, HasAnswer, next_of};
    ghost use Rattle.edge_bits.specs.declared.edges.Edge.{Edge};
    ghost use Rattle.node_store.specs.declared.operator.Task.{Task};
    ghost use Rattle.node_store.specs.declared.operator.Frame.{Frame};

    /// What it does to a store, call by call: reflexive and transitive.
    ghost moves: { Self → State → State → Type 0 };

    /// The tasks that may be asked.
    ghost due: { Self → State → Task → Type 0 };

    /// The edge is an answer of the task.
    ghost answers: { Self → State → Task → Edge → Type 0 };

    /// The answer is out of range.
    ghost overflows: { Self → State → Task → Type 0 };

    /// The frame was made for the first task, and waits for an answer of the second.
    ghost waits: { Self → State → Task → Frame → Task → Type 0 };

    /// What was due at an answer Full.
    ghost refused: { Self → State → Type 0 };

    /// A bound on the frames that a task needs.
    ghost depth: { Self → State → Task → ℕ };

    /// The frames that its own steps need above these.
    ghost extra: { Self → State → ℕ };

    /// The first step of a task.
    fn start(&self, store: &mut G, stack: &mut Stack, task: Task) -> Result<Next, Halt>
        requires due { due self.now (state_of (G.view store.old) stack.old) task }
        requires room { extra self.now (state_of (G.view store.old) stack.old) ≤ stack.old.free }
        ensures moved { moves self.now (state_of (G.view store.old) stack.old) (state_of (G.view store.new) stack.new) }
        ensures next { IfOk result (NextFor (due self.now) (answers self.now) (waits self.now) (depth self.now) (state_of (G.view store.new) stack.new) task) }
        ensures overflow { IsErrOf result Halt.Overflow → overflows self.now (state_of (G.view store.new) stack.new) task }
        ensures memory { IsErrOf result Halt.Memory → (G.view store.old).may_want_memory ≡ true }
        ensures due { IsErrOf result Halt.Full → refused self.now (state_of (G.view store.new) stack.new) }
        ensures full { IsErrOf result Halt.Full → Rose (G.view store.old) (G.view store.new) }
        ensures frames { stack.new.frames ≡ stack.old.frames }
        ensures free { stack.new.free ≡ stack.old.free };

    /// The next step of the frame at the top of the stack, which has the answer that it waited for.
    fn resume(
        &self,
        store: &mut G,
        stack: &mut Stack,
        frame: Frame,
        answer: Edge,
    ) -> Result<Turn, Halt>
        requires waits { HasAnswer (due self.now) (answers self.now) (waits self.now) (state_of (G.view store.old) stack.old) frame answer }
        requires room { extra self.now (state_of (G.view store.old) stack.old) ≤ stack.old.free }
        ensures moved { moves self.now (state_of (G.view store.old) stack.old) (state_of (G.view store.new) stack.new) }
        ensures next { (root child : Task) → due self.now (state_of (G.view store.old) stack.old) root → waits self.now (state_of (G.view store.old) stack.old) root frame child → answers self.now (state_of (G.view store.old) stack.old) child answer → IfOk result (λ turn. NextFor (due self.now) (answers self.now) (waits self.now) (depth self.now) (state_of (G.view store.new) stack.new) root (next_of frame turn)) }
        ensures overflow { IsErrOf result Halt.Overflow → (root child : Task) → due self.now (state_of (G.view store.old) stack.old) root → waits self.now (state_of (G.view store.old) stack.old) root frame child → answers self.now (state_of (G.view store.old) stack.old) child answer → overflows self.now (state_of (G.view store.new) stack.new) root }
        ensures fewer { IfOk result (λ turn. FewerLeft frame (next_of frame turn)) }
        ensures memory { IsErrOf result Halt.Memory → (G.view store.old).may_want_memory ≡ true }
        ensures due { IsErrOf result Halt.Full → refused self.now (state_of (G.view store.new) stack.new) }
        ensures full { IsErrOf result Halt.Full → Rose (G.view store.old) (G.view store.new) }
        ensures frames { stack.new.frames ≡ stack.old.frames }
        ensures free { stack.new.free ≡ stack.old.free };

    ghost moves_none: { (o : Self) (v : State) → moves o v v };

    ghost moves_both: { (o : Self) (u v w : State) → moves o u v → moves o v w → moves o u w };

    ghost moves_fulls: { (o : Self) (v w : State) → moves o v w → v.view.fulls ≤ w.view.fulls };

    ghost moves_wants: { (o : Self) (v w : State) → moves o v w → w.view.may_want_memory ≡ true → v.view.may_want_memory ≡ true };

    ghost due_stays: { (o : Self) (v w : State) (t : Task) → moves o v w → due o v t → due o w t };

    ghost answers_stay: { (o : Self) (v w : State) (t : Task) (e : Edge) → moves o v w → due o v t → answers o v t e → answers o w t e };

    ghost waits_stay: { (o : Self) (v w : State) (t : Task) (f : Frame) (u : Task) → moves o v w → due o v t → waits o v t f u → waits o w t f u };

    ghost depth_stays: { (o : Self) (v w : State) (t : Task) → moves o v w → due o v t → depth o w t ≡ depth o v t };

    ghost overflow_rises: { (o : Self) (w : State) (t : Task) (f : Frame) (u : Task) → due o w t → waits o w t f u → overflows o w u → overflows o w t };

    ghost extra_stays: { (o : Self) (v w : State) → moves o v w → extra o w ≡ extra o v };
}
