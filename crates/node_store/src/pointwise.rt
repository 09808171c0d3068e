//! Operators of two operands of one kind that go place by place.

ghost use Rattle.std.specs.Prelude.{◌≡◌, ◌≤◌};
ghost use Rattle.node_store.specs.Views.{View, AreTwo, Permanent, levels as levels_of};
ghost use Rattle.node_store.specs.Operations.{Runs};
ghost use Rattle.node_store.specs.Two.{value_of_two, place_at};

use crate::binary::{Apply, Binary, Branch, Expansion};
use crate::evaluate::evaluate;
use crate::grow::{Edge, Grow, Key, Kind};
use crate::operator::{Halt, Task};
use crate::parts::{Split, split_two};
use crate::scratch::Operation;
use crate::stack::Stack;

/// An operation on the values of a kind, with its terminal cases.
pub trait Pointwise<G: Grow> {
    ghost use Rattle.std.specs.Prelude.{◌≡◌, ℕ, ◌≤◌, IfOk, IfSome, IfNone, IsErrOf, IsOkAnd, ◌⊎◌, true, Some};
    ghost use Rattle.edge_bits.specs.declared.edges.Edge.{Edge};
    ghost use Rattle.computed_cache.specs.declared.Key.{Key};
    ghost use Rattle.edge_bits.specs.declared.edges.Kind.{Kind};
    ghost use Rattle.function_laws.specs.Kinds.{ValueOf, KeepsAbsent, function_of};
    ghost use Rattle.node_store.specs.Views.{View, AreTwo, Denotes, Grown, IsLeaf, Rose, Permanent, values_at};
    ghost use Rattle.node_store.specs.Memo.{MemoHolds, PlaceHolds};
    ghost use Rattle.node_store.specs.Two.{place_at, IsOrderFor, Overflows};

    /// The kind of the operands and of the answer.
    ghost kind: { Kind };

    /// What it does to the values at each place.
    ghost op: { ValueOf kind → ValueOf kind → ValueOf kind };

    /// The answer where the edges alone tell it.
    fn terminal(&self, f: Edge, g: Edge) -> Option<Edge>
        ensures { (w : View) → Permanent w → AreTwo kind w f g → IfSome result (λ e. Denotes kind w e (place_at kind op w f g)) };

    /// The answer of two leaves with these values.
    fn at_leaves(&self, store: &mut G, f: Edge, g: Edge, x: i64, y: i64) -> Result<Edge, Halt>
        requires operands { AreTwo kind (G.view store.old) f g }
        requires permanent { Permanent (G.view store.old) }
        requires first { IsLeaf kind (G.view store.old) f (values_at kind (G.view store.old) f) x }
        requires second { IsLeaf kind (G.view store.old) g (values_at kind (G.view store.old) g) y }
        ensures grown { Grown (G.view store.old) (G.view store.new) }
        ensures answer { IfOk result (λ e. Denotes kind (G.view store.new) e (place_at kind op (G.view store.old) f g)) }
        ensures made { (s : ℕ) → (G.view store.new).made s ≡ true → ((G.view store.old).made s ≡ true) ⊎ IsOkAnd result (λ e. e.index ≡ s) }
        ensures overflow { IsErrOf result Halt.Overflow → Overflows kind (place_at kind op (G.view store.old) f g) }
        ensures memory { IsErrOf result Halt.Memory → (G.view store.old).may_want_memory ≡ true }
        ensures due { IsErrOf result Halt.Full → (G.view store.new).due ≡ Some (function_of kind (place_at kind op (G.view store.old) f g)) }
        ensures full { IsErrOf result Halt.Full → Rose (G.view store.old) (G.view store.new) };

    /// The operands in the order in which they stand in a key.
    fn arrange(&self, f: Edge, g: Edge) -> Task
        ensures order { IsOrderFor op f g result.f result.g }
        ensures unused { result.h ≡ result.f };

    /// The kind of the operands and of the answer.
    fn answer_kind(&self) -> Kind
        ensures { result ≡ kind };

    /// The operation's number.
    fn number(&self) -> u8
        ensures range { (1 ≤ result) × (result ≤ 62) }
        ensures memo { (w : View) (key : Key) (e : Edge) → key.op ≡ result → PlaceHolds kind op w key e → MemoHolds w key e }
        ensures hit { (w : View) (key : Key) (e : Edge) → key.op ≡ result → MemoHolds w key e → PlaceHolds kind op w key e };

    ghost keeps: { KeepsAbsent kind op };
}

/// Such an operation on these two operands.
#[derive(Drop)]
pub struct TwoOperands<O> {
    pub op: O,
    pub f: Edge,
    pub g: Edge,
}

impl<G: Grow, O: Pointwise<G>> Apply<G> for TwoOperands<O> {
    ghost use Rattle.std.specs.Prelude.{refl};
    ghost use Rattle.node_store.specs.Views.{AreTwo};
    ghost use Rattle.node_store.specs.Two.{TwoDue, TwoAnswers, TwoSplits, two_depth, value_of_two, place_at, Overflows};
    ghost use Rattle.node_store.specs.TwoLaws.{AreTwo-grown, value-stays, TwoDue-stays, TwoAnswers-stay, TwoSplits-stay, two_depth-stays, Two-overflow_hi, Two-overflow_lo};

    ghost roots = { λ o w. AreTwo O.kind w o.f o.g };

    ghost work = { λ o. value_of_two O.kind O.op o.f o.g };

    ghost due = { λ o. TwoDue O.kind O.op o.f o.g };

    ghost answers = { λ _. TwoAnswers O.kind O.op };

    ghost overflows = { λ _ w t. Overflows O.kind (place_at O.kind O.op w t.f t.g) };

    ghost splits = { λ _. TwoSplits O.kind };

    ghost depth = { λ _. two_depth O.kind };

    ghost extra = { λ _ _. 0 };

    fn expand(&self, store: &mut G, task: Task) -> Result<Expansion, Halt> {
        if let Some(edge) = self.op.terminal(task.f, task.g) {
            return Ok(Expansion::Done(edge));
        }
        let task = self.op.arrange(task.f, task.g);
        let key = key_of(self.op.number(), task);
        if let Some(edge) = store.memo_get(&key) {
            return Ok(Expansion::Done(edge));
        }
        match split_two(store, task.f, task.g) {
            Split::Leaves(x, y) => Ok(Expansion::Done(
                self.op.at_leaves(store, task.f, task.g, x, y)?,
            )),
            Split::At(halves) => Ok(Expansion::Split(Branch {
                task,
                flip: false,
                var: halves.top.var,
                hi: halves.hi,
                lo: halves.lo,
            })),
        }
    }

    fn join(
        &self,
        store: &mut G,
        _stack: &mut Stack,
        _task: Task,
        var: u32,
        hi: Edge,
        lo: Edge,
    ) -> Result<Edge, Halt> {
        Ok(store.make(var, hi, lo)?)
    }

    fn key(&self, task: Task) -> Option<Key> {
        Some(key_of(self.op.number(), Task::two(task.f, task.g)))
    }

    ghost roots_stay = { λ o v w m d. AreTwo-grown O.kind m d };

    ghost work_stays = { λ o. value-stays O.kind O.op o.f o.g };

    ghost due_stays = { λ o. TwoDue-stays O.kind O.op o.f o.g };

    ghost answers_stay = { λ o. TwoAnswers-stay O.kind O.op o.f o.g };

    ghost splits_stay = { λ o v w t x a b m d. TwoSplits-stay O.kind v w t x a b m d.two };

    ghost depth_stays = { λ o v w t m d. two_depth-stays O.kind v w t m d.two };

    ghost overflow_hi = { λ o w t x a b d. Two-overflow_hi O.kind O.op O.keeps w t x a b };

    ghost overflow_lo = { λ o w t x a b d. Two-overflow_lo O.kind O.op O.keeps w t x a b };

    ghost extra_stays = { λ _ _ _ _. refl };
}

pub(crate) fn key_of(op: u8, task: Task) -> Key
    ensures { result ≡ record { op = op; f = task.f; g = task.g; h = task.h } }
{
    Key {
        op,
        f: task.f,
        g: task.g,
        h: task.h,
    }
}

/// The operation on two operands, on this stack.
pub fn place_by_place<G: Grow, O: Pointwise<G> + Drop>(
    store: &mut G,
    stack: &mut Stack,
    op: O,
    f: Edge,
    g: Edge,
) -> Result<Edge, Halt>
    requires operands { AreTwo O.kind (G.view store.old) f g }
    requires permanent { Permanent (G.view store.old) }
    requires room { levels_of O.kind (G.view store.old) ≤ stack.old.free }
    ensures runs { Runs O.kind (place_at O.kind O.op (G.view store.old) f g) (value_of_two O.kind O.op f g (G.view store.old)) (G.view store.old) (G.view store.new) result }
    ensures stack { stack.new ≡ stack.old }
{
    evaluate(
        store,
        stack,
        &Binary(TwoOperands { op, f, g }),
        Task::two(f, g),
    )
}

impl<G: Grow, O: Pointwise<G> + Drop> Operation<G> for TwoOperands<O> {
    ghost use Rattle.node_store.specs.Views.{AreTwo, Denotes};
    ghost use Rattle.node_store.specs.Two.{Overflows, place_at, value_of_two};
    ghost use Rattle.node_store.specs.TwoLaws.{AreTwo-grown, overflows-back, place_at-lasts, value-back};

    ghost kind = { O.kind };

    ghost asks = { λ o w. AreTwo O.kind w o.f o.g };

    ghost answers = { λ o v w e. Denotes O.kind w e (place_at O.kind O.op v o.f o.g) };

    ghost overflows = { λ o w. Overflows O.kind (place_at O.kind O.op w o.f o.g) };

    ghost work = { λ o. value_of_two O.kind O.op o.f o.g };

    fn answer_kind(&self) -> Kind {
        self.op.answer_kind()
    }

    fn run(self, store: &mut G, stack: &mut Stack) -> Result<Edge, Halt> {
        place_by_place(store, stack, self.op, self.f, self.g)
    }

    ghost asks_stay = { λ o v w m. AreTwo-grown O.kind m };

    ghost answers_last = { λ o. place_at-lasts O.kind O.op o.f o.g };

    ghost overflows_back = { λ o v w m d. overflows-back O.kind O.op m d };

    ghost work_back = { λ o. value-back O.kind O.op o.f o.g };
}
