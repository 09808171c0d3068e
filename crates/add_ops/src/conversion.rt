//! Operators of one operand that convert its values, one by one, to those of another kind.

ghost use Rattle.std.specs.Prelude.{IfSome};
ghost use Rattle.node_store.specs.Views.{Denotes, Is, Kept};
ghost use Rattle.add_ops.specs.Conversions.{converted_at};

use edge_bits::{Edge, Kind};
use node_store::binary::{Apply, Binary, Branch, Expansion};
use node_store::evaluate::evaluate;
use node_store::operator::{Halt, Task};
use node_store::remembering::Remembering;
use node_store::scratch::Operation;
use node_store::{Grow, Key, Opened, Stack};

/// An operation on the values of one function. Both kinds depend on variables.
pub(crate) trait Conversion {
    ghost use Rattle.std.specs.Prelude.{◌≡◌, ℕ, IfSome};
    ghost use Rattle.edge_bits.specs.declared.edges.Edge.{Edge};
    ghost use Rattle.edge_bits.specs.declared.edges.Kind.{Kind};
    ghost use Rattle.function_laws.specs.Kinds.{ValueOf};
    ghost use Rattle.node_store.specs.Three.{IsOnVariables};
    ghost use Rattle.node_store.specs.Views.{View, Denotes, IsLeafOf, Permanent};
    ghost use Rattle.add_ops.specs.Conversions.{IsKeyOf, converted};

    /// The kind of the operand.
    ghost source: { Kind };

    /// The kind of the answer.
    ghost target: { Kind };

    /// What it does to the value at each place.
    ghost op: { Self → ValueOf source → ValueOf target };

    /// The answer for a leaf of this number.
    fn at_leaf(&self, number: i64) -> Edge
        ensures { (w : View) → Permanent w → (e : Edge) (f : ℕ → ValueOf source) → IsLeafOf source e f number → Denotes target w result (converted (op self.now) f) };

    /// The kind of the answer.
    fn answer_kind(&self) -> Kind
        ensures { result ≡ target };

    /// The key under which the store keeps the answer for a function, if there is one.
    fn key(&self, f: Edge) -> Option<Key>
        ensures { IfSome result (IsKeyOf source target (op self.now) f) };

    ghost from_variables: { IsOnVariables source };

    ghost on_variables: { IsOnVariables target };
}

/// Such an operation on this operand.
#[derive(Drop)]
pub(crate) struct OneOperand<C> {
    pub op: C,
    pub f: Edge,
}

impl<G: Grow, C: Conversion> Apply<G> for OneOperand<C> {
    ghost use Rattle.std.specs.Prelude.{refl};
    ghost use Rattle.node_store.specs.Views.{Is};
    ghost use Rattle.node_store.specs.ViewLaws.{Is-grown};
    ghost use Rattle.add_ops.specs.Conversions.{OneAnswers, OneDue, OneSplits, one_depth, value_of_one};
    ghost use Rattle.add_ops.specs.ConversionLasts.{OneAnswers-stay, OneDue-stays, OneSplits-stay, one_depth-stays, value_of_one-stays};

    ghost roots = { λ o w. Is C.source w o.f };

    ghost work = { λ o. value_of_one C.source C.target (C.op o.op) o.f };

    ghost due = { λ o. OneDue C.source C.target (C.op o.op) o.f };

    ghost answers = { λ o. OneAnswers C.source C.target (C.op o.op) };

    ghost overflows = { λ _ _ _. ⊥ };

    ghost splits = { λ _. OneSplits C.source };

    ghost depth = { λ _. one_depth C.source };

    ghost extra = { λ _ _. 0 };

    fn expand(&self, store: &mut G, task: Task) -> Result<Expansion, Halt> {
        match store.open(task.f) {
            Opened::Leaf(number) => Ok(Expansion::Done(self.op.at_leaf(number))),
            Opened::Inner(var, hi, lo) => match known(store, &self.op, task.f) {
                Some(edge) => Ok(Expansion::Done(edge)),
                None => Ok(Expansion::Split(Branch {
                    task,
                    flip: false,
                    var,
                    hi: Task::two(hi, hi),
                    lo: Task::two(lo, lo),
                })),
            },
        }
    }

    fn join(
        &self,
        store: &mut G,
        _stack: &mut Stack,
        _task: Task,
        var: u32,
        hi: Edge,
        lo: Edge,
    ) -> Result<Edge, Halt> {
        Ok(store.make(var, hi, lo)?)
    }

    fn key(&self, task: Task) -> Option<Key> {
        self.op.key(task.f)
    }

    ghost roots_stay = { λ o v w m d. Is-grown C.source m d };

    ghost work_stays = { λ o. value_of_one-stays C.source C.target (C.op o.op) o.f };

    ghost due_stays = { λ o. OneDue-stays C.source C.target (C.op o.op) o.f };

    ghost answers_stay = { λ o v w t e m d. OneAnswers-stay C.source C.target (C.op o.op) v w t e m d.edge };

    ghost splits_stay = { λ o v w t x a b m d. OneSplits-stay C.source v w t x a b m d.edge };

    ghost depth_stays = { λ o v w t m d. one_depth-stays C.source v w t m d.edge };

    ghost overflow_hi = { λ o w t x a b d s bad. bad };

    ghost overflow_lo = { λ o w t x a b d s bad. bad };

    ghost extra_stays = { λ _ _ _ _. refl };
}

/// The answer for a function, if the store still knows it.
fn known<G: Grow, C: Conversion>(store: &mut G, op: &C, f: Edge) -> Option<Edge>
    requires { Is C.source (G.view store.old) f }
    ensures kept { Kept (G.view store.old) (G.view store.new) }
    ensures known { IfSome result (λ e. Denotes C.target (G.view store.new) e (converted_at C.source C.target (C.op op.now) (G.view store.new) f)) }
{
    match op.key(f) {
        Some(key) => store.memo_get(&key),
        None => None,
    }
}

impl<G: Grow, C: Conversion + Drop> Operation<G> for OneOperand<C> {
    ghost use Rattle.node_store.specs.Views.{Denotes, Is};
    ghost use Rattle.node_store.specs.ViewLaws.{Is-grown};
    ghost use Rattle.add_ops.specs.Conversions.{converted_at, value_of_one};
    ghost use Rattle.add_ops.specs.ConversionLasts.{converted_at-lasts, value_of_one-back};

    ghost kind = { C.target };

    ghost asks = { λ o w. Is C.source w o.f };

    ghost answers = { λ o v w e. Denotes C.target w e (converted_at C.source C.target (C.op o.op) v o.f) };

    ghost overflows = { λ _ _. ⊥ };

    ghost work = { λ o. value_of_one C.source C.target (C.op o.op) o.f };

    fn answer_kind(&self) -> Kind {
        self.op.answer_kind()
    }

    fn run(self, store: &mut G, stack: &mut Stack) -> Result<Edge, Halt> {
        let task = Task::two(self.f, self.f);
        evaluate(store, stack, &Binary(self), task)
    }

    ghost asks_stay = { λ o v w m. Is-grown C.source m };

    ghost answers_last = { λ o. converted_at-lasts C.source C.target (C.op o.op) o.f };

    ghost overflows_back = { λ o v w m d over. over };

    ghost work_back = { λ o. value_of_one-back C.source C.target (C.op o.op) o.f };
}

/// The same operation where the table of the call keeps the answers, since no key has room for what it needs.
#[derive(Drop)]
pub(crate) struct RememberedOperand<C>(pub OneOperand<C>);

impl<G: Grow, C: Conversion + Drop> Operation<G> for RememberedOperand<C> {
    ghost use Rattle.node_store.specs.Views.{Denotes, Is};
    ghost use Rattle.node_store.specs.ViewLaws.{Is-grown};
    ghost use Rattle.add_ops.specs.Conversions.{converted_at, value_of_one};
    ghost use Rattle.add_ops.specs.ConversionLasts.{converted_at-lasts, value_of_one-back};

    ghost kind = { C.target };

    ghost asks = { λ o w. Is C.source w o.0.f };

    ghost answers = { λ o v w e. Denotes C.target w e (converted_at C.source C.target (C.op o.0.op) v o.0.f) };

    ghost overflows = { λ _ _. ⊥ };

    ghost work = { λ o. value_of_one C.source C.target (C.op o.0.op) o.0.f };

    fn answer_kind(&self) -> Kind {
        self.0.op.answer_kind()
    }

    fn run(self, store: &mut G, stack: &mut Stack) -> Result<Edge, Halt> {
        let RememberedOperand(operand) = self;
        let task = Task::two(operand.f, operand.f);
        evaluate(store, stack, &Remembering(operand), task)
    }

    ghost asks_stay = { λ o v w m. Is-grown C.source m };

    ghost answers_last = { λ o. converted_at-lasts C.source C.target (C.op o.0.op) o.0.f };

    ghost overflows_back = { λ o v w m d over. over };

    ghost work_back = { λ o. value_of_one-back C.source C.target (C.op o.0.op) o.0.f };
}
