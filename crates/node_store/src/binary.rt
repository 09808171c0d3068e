//! Operators that split a task in two at a variable, and join the two answers.

use crate::grow::{Edge, Grow, Key};
use crate::operator::{Frame, Halt, Next, Operator, Task, Turn, Wait};
use crate::stack::Stack;

/// A task in its normal form, with its two parts; its answer is to be flipped.
#[derive(Clone, Copy, PartialEq, Eq, Drop)]
pub struct Branch {
    pub task: Task,
    pub flip: bool,
    pub var: u32,
    pub hi: Task,
    pub lo: Task,
}

/// A terminal case, or two parts.
#[derive(Clone, Copy, PartialEq, Eq, Drop)]
pub enum Expansion {
    Done(Edge),
    Split(Branch),
}

/// An operator that splits a task in two, by its parts.
pub trait Apply<G: Grow> {
    ghost use Rattle.std.specs.Prelude.{◌≡◌, ℕ, ◌+◌, ◌<◌, ◌≤◌, IfOk, IfSome, IsErrOf, true};
    ghost use Rattle.edge_bits.specs.declared.edges.Edge.{Edge};
    ghost use Rattle.function_laws.specs.Kinds.{Denoted};
    ghost use Rattle.node_store.specs.Views.{View, Grown, Rose, IsKey};
    ghost use Rattle.node_store.specs.Work.{Moves, IsWork};
    ghost use Rattle.node_store.specs.Memo.{MemoHolds};
    ghost use Rattle.node_store.specs.Splits.{Expanded, CanJoin, KeepsUnder, Settles};
    ghost use Rattle.node_store.specs.declared.operator.Task.{Task};

    /// The operands of the call denote.
    ghost roots: { Self → View → Type 0 };

    /// The work of the call: what it stores are parts of these functions.
    ghost work: { Self → View → Denoted → Type 0 };

    /// The tasks that may be asked, which are parts of the call.
    ghost due: { Self → View → Task → Type 0 };

    /// The edge is an answer of the task.
    ghost answers: { Self → View → Task → Edge → Type 0 };

    /// The answer is out of range.
    ghost overflows: { Self → View → Task → Type 0 };

    /// The task splits at the variable into these two.
    ghost splits: { Self → View → Task → ℕ → Task → Task → Type 0 };

    /// A bound on the frames that a task needs.
    ghost depth: { Self → View → Task → ℕ };

    /// The frames that a join needs above these.
    ghost extra: { Self → View → ℕ };

    /// The terminal cases, and the parts of the others.
    fn expand(&self, store: &mut G, task: Task) -> Result<Expansion, Halt>
        requires { due self.now (G.view store.old) task }
        ensures moved { Moves (roots self.now) (work self.now) (G.view store.old) (G.view store.new) }
        ensures expanded { IfOk result (Expanded (due self.now) (answers self.now) (overflows self.now) (splits self.now) (depth self.now) (G.view store.new) task) }
        ensures overflow { IsErrOf result Halt.Overflow → overflows self.now (G.view store.new) task }
        ensures memory { IsErrOf result Halt.Memory → (G.view store.old).may_want_memory ≡ true }
        ensures due { IsErrOf result Halt.Full → IsWork (G.view store.new) (work self.now (G.view store.new)) (G.view store.new).due }
        ensures full { IsErrOf result Halt.Full → Rose (G.view store.old) (G.view store.new) };

    /// The answer of a task where the answer of its first part settles it.
    fn settled(&self, task: Task, var: u32, first: Edge) -> Option<Edge>
        ensures { IfSome result (Settles (due self.now) (answers self.now) (splits self.now) task var first) }
    {
        let _ = (task, var, first);
        None
    }

    /// The answer of a task from those of its parts.
    fn join(
        &self,
        store: &mut G,
        stack: &mut Stack,
        task: Task,
        var: u32,
        hi: Edge,
        lo: Edge,
    ) -> Result<Edge, Halt>
        requires parts { CanJoin (due self.now) (answers self.now) (splits self.now) (G.view store.old) task var hi lo }
        requires room { extra self.now (G.view store.old) ≤ stack.old.free }
        ensures moved { Moves (roots self.now) (work self.now) (G.view store.old) (G.view store.new) }
        ensures answer { IfOk result (answers self.now (G.view store.new) task) }
        ensures overflow { IsErrOf result Halt.Overflow → overflows self.now (G.view store.new) task }
        ensures memory { IsErrOf result Halt.Memory → (G.view store.old).may_want_memory ≡ true }
        ensures due { IsErrOf result Halt.Full → IsWork (G.view store.new) (work self.now (G.view store.new)) (G.view store.new).due }
        ensures full { IsErrOf result Halt.Full → Rose (G.view store.old) (G.view store.new) }
        ensures stack { stack.new ≡ stack.old };

    /// The key under which the answer of a task is kept.
    fn key(&self, task: Task) -> Option<Key>
        ensures { IfSome result (KeepsUnder (due self.now) (answers self.now) task) };

    ghost roots_stay: { (o : Self) (v w : View) → Grown v w → roots o v → roots o w };

    ghost work_stays: { (o : Self) (v w : View) (f : Denoted) → Grown v w → roots o v → work o v f → work o w f };

    ghost due_stays: { (o : Self) (v w : View) (t : Task) → Grown v w → due o v t → due o w t };

    ghost answers_stay: { (o : Self) (v w : View) (t : Task) (e : Edge) → Grown v w → due o v t → answers o v t e → answers o w t e };

    ghost splits_stay: { (o : Self) (v w : View) (t : Task) (x : ℕ) (a b : Task) → Grown v w → due o v t → splits o v t x a b → splits o w t x a b };

    ghost depth_stays: { (o : Self) (v w : View) (t : Task) → Grown v w → due o v t → depth o w t ≡ depth o v t };

    ghost overflow_hi: { (o : Self) (w : View) (t : Task) (x : ℕ) (a b : Task) → due o w t → splits o w t x a b → overflows o w a → overflows o w t };

    ghost overflow_lo: { (o : Self) (w : View) (t : Task) (x : ℕ) (a b : Task) → due o w t → splits o w t x a b → overflows o w b → overflows o w t };

    ghost extra_stays: { (o : Self) (v w : View) → Grown v w → extra o w ≡ extra o v };
}

/// Such an operator, as the evaluator runs it.
#[derive(Drop)]
pub struct Binary<O>(pub O);

impl<G: Grow, O: Apply<G>> Operator<G> for Binary<O> {
    ghost use Rattle.std.specs.Prelude.{◌≡◌};
    ghost use Rattle.node_store.specs.Splits.{Waiting};
    ghost use Rattle.node_store.specs.Waiting.{Waiting-stays, Waiting-overflows};
    ghost use Rattle.node_store.specs.BinaryLaws.{BinaryMoves, BinaryMoves-none, BinaryMoves-both};
    ghost use Rattle.node_store.specs.Work.{IsWork};

    ghost moves = { λ s. BinaryMoves (O.roots s.0) (O.work s.0) };

    ghost due = { λ s w. O.due s.0 w.view };

    ghost answers = { λ s w. O.answers s.0 w.view };

    ghost overflows = { λ s w. O.overflows s.0 w.view };

    ghost waits = { λ s w. Waiting (O.due s.0) (O.answers s.0) (O.overflows s.0) (O.splits s.0) (O.depth s.0) w.view };

    ghost refused = { λ s w. IsWork w.view (O.work s.0 w.view) w.view.due };

    ghost depth = { λ s w. O.depth s.0 w.view };

    ghost extra = { λ s w. O.extra s.0 w.view };

    fn start(&self, store: &mut G, _stack: &mut Stack, task: Task) -> Result<Next, Halt> {
        match self.0.expand(store, task)? {
            Expansion::Done(edge) => Ok(Next::Done(edge)),
            Expansion::Split(branch) => {
                let frame = Frame {
                    task: branch.task,
                    var: branch.var,
                    flip: branch.flip,
                    wait: Wait::First(branch.lo),
                };
                Ok(Next::Call(frame, branch.hi))
            }
        }
    }

    fn resume(
        &self,
        store: &mut G,
        stack: &mut Stack,
        frame: Frame,
        answer: Edge,
    ) -> Result<Turn, Halt> {
        let Frame {
            task: Task { f, g, h },
            var,
            flip,
            wait,
        } = frame;
        match wait {
            Wait::First(later) => {
                if let Some(edge) = self.0.settled(Task { f, g, h }, var, answer) {
                    return Ok(Turn::Done(finish(&self.0, store, Task { f, g, h }, flip, edge)));
                }
                Ok(Turn::Call(Wait::Second(answer), later))
            }
            Wait::Second(hi) => {
                let edge = self
                    .0
                    .join(store, stack, Task { f, g, h }, var, hi, answer)?;
                Ok(Turn::Done(finish(&self.0, store, Task { f, g, h }, flip, edge)))
            }
            _ => unreachable!(),
        }
    }

    ghost moves_none = { λ o. BinaryMoves-none (O.roots o.0) (O.work o.0) };

    ghost moves_both = { λ o. BinaryMoves-both (O.roots o.0) (O.work o.0) (O.roots_stay o.0) (O.work_stays o.0) };

    ghost moves_fulls = { λ o v w m. m.moves.grown.fulls };

    ghost moves_wants = { λ o v w m. m.moves.grown.wants };

    ghost due_stays = { λ o v w t m. O.due_stays o.0 v.view w.view t m.moves.grown };

    ghost answers_stay = { λ o v w t e m. O.answers_stay o.0 v.view w.view t e m.moves.grown };

    ghost waits_stay = { λ o v w t f u m d. Waiting-stays (O.due o.0) (O.answers o.0) (O.overflows o.0) (O.splits o.0) (O.depth o.0) (O.due_stays o.0) (O.answers_stay o.0) (O.splits_stay o.0) (O.depth_stays o.0) v.view w.view t f u m.moves.grown d };

    ghost depth_stays = { λ o v w t m. O.depth_stays o.0 v.view w.view t m.moves.grown };

    ghost overflow_rises = { λ o w t f u d. Waiting-overflows (O.due o.0) (O.answers o.0) (O.overflows o.0) (O.splits o.0) (O.depth o.0) (O.overflow_hi o.0) (O.overflow_lo o.0) w.view t f u };

    ghost extra_stays = { λ o v w m. O.extra_stays o.0 v.view w.view m.moves.grown };
}

ghost use Rattle.std.specs.Prelude.{◌≡◌};
ghost use Rattle.node_store.specs.Edges.{flip_if as flipped_edge};
ghost use Rattle.node_store.specs.Views.{Kept};

/// Keeps the answer of a task under its key, and gives it the complement where it is asked for.
fn finish<G: Grow, O: Apply<G>>(op: &O, store: &mut G, task: Task, flip: bool, edge: Edge) -> Edge
    requires due { O.due op.now (G.view store.old) task }
    requires answer { O.answers op.now (G.view store.old) task edge }
    ensures kept { Kept (G.view store.old) (G.view store.new) }
    ensures flipped { result ≡ flipped_edge flip edge }
{
    if let Some(key) = op.key(task) {
        store.memo_put(key, edge);
    }
    flip_if(edge, flip)
}

/// The complement where it is asked for.
pub fn flip_if(edge: Edge, flip: bool) -> Edge
    ensures { result ≡ flipped_edge flip edge }
{
    if flip { edge.flip() } else { edge }
}
