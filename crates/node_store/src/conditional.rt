//! If-then-else: a condition and two functions of a kind that depends on variables.

ghost use Rattle.std.specs.Prelude.{◌≡◌, ◌≤◌};
ghost use Rattle.edge_bits.specs.declared.edges.Kind.{Kind};
ghost use Rattle.node_store.specs.Operations.{Runs};
ghost use Rattle.node_store.specs.Views.{Kept, Permanent, levels as levels_of};
ghost use Rattle.node_store.specs.Three.{AreThree, CanSplit, IsBranch, ite_at, value_of_three};

use crate::binary::{Apply, Binary, Branch, Expansion, flip_if};
use crate::evaluate::evaluate;
use crate::grow::{Edge, Grow, Key, Kind};
use crate::operator::{Halt, Task};
use crate::parts::{Halves, split_three};
use crate::pointwise::key_of;
use crate::scratch::Operation;
use crate::stack::Stack;

/// The answer of a task, or a task in normal form, whose answer is to be flipped where that is said.
#[derive(Clone, Copy, PartialEq, Eq, Drop)]
pub enum Reduced {
    Answer(Edge),
    Normal(Task, bool),
}

/// If-then-else on the functions of a kind, with its terminal cases.
pub trait IfThenElse {
    ghost use Rattle.std.specs.Prelude.{◌≡◌, ◌≤◌};
    ghost use Rattle.edge_bits.specs.declared.edges.Edge.{Edge};
    ghost use Rattle.computed_cache.specs.declared.Key.{Key};
    ghost use Rattle.edge_bits.specs.declared.edges.Kind.{Kind};
    ghost use Rattle.node_store.specs.Views.{View, Permanent};
    ghost use Rattle.node_store.specs.Memo.{MemoHolds, IteHolds};
    ghost use Rattle.node_store.specs.Three.{AreThree, IsOnVariables, IsReduced};

    /// The kind of the two functions and of the answer.
    ghost kind: { Kind };

    /// The answer in a terminal case, else the normal form of the task.
    fn reduce(&self, f: Edge, g: Edge, h: Edge) -> Reduced
        ensures { (w : View) → Permanent w → AreThree kind w f g h → IsReduced kind w f g h result };

    /// The kind of the two functions and of the answer.
    fn answer_kind(&self) -> Kind
        ensures { result ≡ kind };

    /// The operation's number.
    fn number(&self) -> u8
        ensures range { (1 ≤ result) × (result ≤ 62) }
        ensures memo { (w : View) (key : Key) (e : Edge) → key.op ≡ result → IteHolds kind w key e → MemoHolds w key e }
        ensures hit { (w : View) (key : Key) (e : Edge) → key.op ≡ result → MemoHolds w key e → IteHolds kind w key e };

    ghost on_variables: { IsOnVariables kind };
}

/// Such an operation on these three operands.
#[derive(Drop)]
pub struct ThreeOperands<O> {
    pub op: O,
    pub f: Edge,
    pub g: Edge,
    pub h: Edge,
}

impl<G: Grow, O: IfThenElse> Apply<G> for ThreeOperands<O> {
    ghost use Rattle.std.specs.Prelude.{refl};
    ghost use Rattle.node_store.specs.Three.{AreThree, ThreeDue, ThreeAnswers, ThreeSplits, three_depth, value_of_three};
    ghost use Rattle.node_store.specs.ThreeLaws.{AreThree-grown, ThreeDue-stays, ThreeAnswers-stay, ThreeSplits-stay, three_depth-stays, value_of_three-stays};

    ghost roots = { λ o w. AreThree O.kind w o.f o.g o.h };

    ghost work = { λ o. value_of_three O.kind o.f o.g o.h };

    ghost due = { λ o. ThreeDue O.kind o.f o.g o.h };

    ghost answers = { λ _. ThreeAnswers O.kind };

    ghost overflows = { λ _ _ _. ⊥ };

    ghost splits = { λ _. ThreeSplits O.kind };

    ghost depth = { λ _. three_depth O.kind };

    ghost extra = { λ _ _. 0 };

    fn expand(&self, store: &mut G, task: Task) -> Result<Expansion, Halt> {
        match self.op.reduce(task.f, task.g, task.h) {
            Reduced::Answer(edge) => Ok(Expansion::Done(edge)),
            Reduced::Normal(normal, flip) => {
                let Task { f, g, h } = normal;
                let key = key_of(self.op.number(), Task { f, g, h });
                match store.memo_get(&key) {
                    Some(edge) => Ok(Expansion::Done(flip_if(edge, flip))),
                    None => Ok(Expansion::Split(branch(store, Task { f, g, h }, flip))),
                }
            }
        }
    }

    fn join(
        &self,
        store: &mut G,
        _stack: &mut Stack,
        _task: Task,
        var: u32,
        hi: Edge,
        lo: Edge,
    ) -> Result<Edge, Halt> {
        Ok(store.make(var, hi, lo)?)
    }

    fn key(&self, task: Task) -> Option<Key> {
        Some(key_of(self.op.number(), task))
    }

    ghost roots_stay = { λ o v w m d. AreThree-grown O.kind m d };

    ghost work_stays = { λ o. value_of_three-stays O.kind o.f o.g o.h };

    ghost due_stays = { λ o. ThreeDue-stays O.kind o.f o.g o.h };

    ghost answers_stay = { λ o v w t e m d. ThreeAnswers-stay O.kind v w t e m d.three };

    ghost splits_stay = { λ o v w t x a b m d. ThreeSplits-stay O.kind v w t x a b m d.three };

    ghost depth_stays = { λ o v w t m d. three_depth-stays O.kind v w t m d.three };

    ghost overflow_hi = { λ o w t x a b d s bad. bad };

    ghost overflow_lo = { λ o w t x a b d s bad. bad };

    ghost extra_stays = { λ _ _ _ _. refl };
}

/// The parts of a task in normal form.
#[inline(always)]
fn branch<G: Grow>(store: &mut G, task: Task, flip: bool) -> Branch
    requires { (k : Kind) × CanSplit k (G.view store.old) task }
    ensures kept { Kept (G.view store.old) (G.view store.new) }
    ensures branch { (k : Kind) → CanSplit k (G.view store.old) task → IsBranch k (G.view store.new) task flip result }
{
    let Task { f, g, h } = task;
    let Halves { top, hi, lo } = split_three(store, Task { f, g, h });
    Branch {
        task: Task { f, g, h },
        flip,
        var: top.var,
        hi,
        lo,
    }
}

/// If-then-else of three operands, on this stack.
pub fn if_then_else<G: Grow, O: IfThenElse + Drop>(
    store: &mut G,
    stack: &mut Stack,
    op: O,
    f: Edge,
    g: Edge,
    h: Edge,
) -> Result<Edge, Halt>
    requires operands { AreThree O.kind (G.view store.old) f g h }
    requires permanent { Permanent (G.view store.old) }
    requires room { levels_of O.kind (G.view store.old) ≤ stack.old.free }
    ensures runs { Runs O.kind (ite_at O.kind (G.view store.old) f g h) (value_of_three O.kind f g h (G.view store.old)) (G.view store.old) (G.view store.new) result }
    ensures stack { stack.new ≡ stack.old }
{
    let op = ThreeOperands { op, f, g, h };
    evaluate(store, stack, &Binary(op), Task { f, g, h })
}

impl<G: Grow, O: IfThenElse + Drop> Operation<G> for ThreeOperands<O> {
    ghost use Rattle.node_store.specs.Views.{Denotes};
    ghost use Rattle.node_store.specs.Two.{Overflows};
    ghost use Rattle.node_store.specs.Three.{AreThree, ite_at, value_of_three};
    ghost use Rattle.node_store.specs.ThreeLaws.{AreThree-grown, ite_at-lasts, ite-overflows, value_of_three-back};

    ghost kind = { O.kind };

    ghost asks = { λ o w. AreThree O.kind w o.f o.g o.h };

    ghost answers = { λ o v w e. Denotes O.kind w e (ite_at O.kind v o.f o.g o.h) };

    ghost overflows = { λ o w. Overflows O.kind (ite_at O.kind w o.f o.g o.h) };

    ghost work = { λ o. value_of_three O.kind o.f o.g o.h };

    fn answer_kind(&self) -> Kind {
        self.op.answer_kind()
    }

    fn run(self, store: &mut G, stack: &mut Stack) -> Result<Edge, Halt> {
        if_then_else(store, stack, self.op, self.f, self.g, self.h)
    }

    ghost asks_stay = { λ o v w m. AreThree-grown O.kind m };

    ghost answers_last = { λ o. ite_at-lasts O.kind o.f o.g o.h };

    ghost overflows_back = { λ o v w m d. ite-overflows O.kind m d };

    ghost work_back = { λ o. value_of_three-back O.kind o.f o.g o.h };
}
