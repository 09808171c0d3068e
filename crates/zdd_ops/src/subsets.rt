//! Operations on a family by one element, as the evaluator runs them.

ghost use Rattle.std.specs.Prelude.{◌≡◌, ℕ, Bool};
ghost use Rattle.edge_bits.specs.declared.edges.Kind.TheVariants.{Zdd};
ghost use Rattle.node_store.specs.Views.{Is, IsVariable, Kept, Permanent};
ghost use Rattle.zdd_ops.specs.Subsets.{IsStanding};

use edge_bits::{Edge, Kind};
use node_store::binary::{Apply, Branch, Expansion};
use node_store::evaluate::evaluate;
use node_store::operator::{Halt, Task};
use node_store::remembering::Remembering;
use node_store::scratch::Operation;
use node_store::{Grow, Key, Opened, Stack, Stop, tell_permanent};

/// An operation on a family by one element. At a node of another element it is the operation on both children.
pub(crate) trait ByElement<G: Grow> {
    ghost use Rattle.std.specs.Prelude.{◌≡◌, ◌≢◌, ℕ, Bool, true, Some, ◌⊎◌, IfOk, IsErrOf, IsOkAnd};
    ghost use Rattle.edge_bits.specs.Reading.{element_of};
    ghost use Rattle.edge_bits.specs.declared.edges.Kind.TheVariants.{Zdd};
    ghost use Rattle.function_laws.specs.Families.{IsWithout, joined};
    ghost use Rattle.function_laws.specs.Kinds.{ZddFamily};
    ghost use Rattle.node_store.specs.Views.{CanMake, Denotes, Grown, Rose, node_values};

    /// What it makes of a family and an element.
    ghost part: { (ℕ → Bool) → ℕ → ℕ → Bool };

    /// What it makes of the family with these parts by the element: the members with it, without it, and the others.
    fn answer(&self, store: &mut G, var: u32, hi: Edge, lo: Edge) -> Result<Edge, Stop>
        requires { CanMake Zdd (G.view store.old) var hi lo }
        ensures grown { Grown (G.view store.old) (G.view store.new) }
        ensures answer { IfOk result (λ e. Denotes Zdd (G.view store.new) e (part (node_values Zdd (G.view store.old) var hi lo) (element_of var))) }
        ensures made { (s : ℕ) → (G.view store.new).made s ≡ true → ((G.view store.old).made s ≡ true) ⊎ IsOkAnd result (λ e. e.index ≡ s) }
        ensures memory { IsErrOf result Stop.Memory → (G.view store.old).may_want_memory ≡ true }
        ensures full { IsErrOf result Stop.Full → Rose (G.view store.old) (G.view store.new) }
        ensures due { IsErrOf result Stop.Full → (G.view store.new).due ≡ Some (ZddFamily (part (node_values Zdd (G.view store.old) var hi lo) (element_of var))) };

    ghost other: { (p q : ℕ → Bool) (x e : ℕ) → x ≢ e → part (joined x p q) e ≡ joined x (part p e) (part q e) };

    ghost lacks: { (p : ℕ → Bool) (e u : ℕ) → u ≢ e → IsWithout p u → IsWithout (part p e) u };
}

/// Such an operation on this family by this element, which is given by its nodes' variable number. Its answers stand in the table of the call, since no key has room for an element.
#[derive(Drop)]
pub(crate) struct OneElement<O> {
    pub op: O,
    pub family: Edge,
    pub element: u32,
}

impl<G: Grow, O: ByElement<G>> Apply<G> for OneElement<O> {
    ghost use Rattle.std.specs.Prelude.{refl};
    ghost use Rattle.edge_bits.specs.declared.edges.Kind.TheVariants.{Zdd};
    ghost use Rattle.node_store.specs.Views.{Is};
    ghost use Rattle.node_store.specs.ViewLaws.{Is-grown};
    ghost use Rattle.zdd_ops.specs.Subsets.{SubsetAnswers, SubsetAnswers-stay, SubsetDue, SubsetDue-stays, SubsetSplits, SubsetSplits-stay, subset_depth, subset_depth-stays, subset_work, subset_work-stays};

    ghost roots = { λ o w. Is Zdd w o.family };

    ghost work = { λ o. subset_work O.part o.element o.family };

    ghost due = { λ o. SubsetDue O.part o.element o.family };

    ghost answers = { λ o. SubsetAnswers O.part o.element };

    ghost overflows = { λ _ _ _. ⊥ };

    ghost splits = { λ o. SubsetSplits o.element };

    ghost depth = { λ _. subset_depth };

    ghost extra = { λ _ _. 0 };

    fn expand(&self, store: &mut G, task: Task) -> Result<Expansion, Halt> {
        match place(store, task.f, self.element) {
            Standing::Here(hi, lo) => {
                let edge = self.op.answer(store, self.element, hi, lo)?;
                Ok(Expansion::Done(edge))
            }
            Standing::Above(var, hi, lo) => Ok(Expansion::Split(Branch {
                task,
                flip: false,
                var,
                hi: Task::two(hi, hi),
                lo: Task::two(lo, lo),
            })),
        }
    }

    fn join(
        &self,
        store: &mut G,
        _stack: &mut Stack,
        _task: Task,
        var: u32,
        hi: Edge,
        lo: Edge,
    ) -> Result<Edge, Halt> {
        Ok(store.make(var, hi, lo)?)
    }

    fn key(&self, _task: Task) -> Option<Key> {
        None
    }

    ghost roots_stay = { λ o v w m d. Is-grown Zdd m d };

    ghost work_stays = { λ o. subset_work-stays O.part o.element o.family };

    ghost due_stays = { λ o. SubsetDue-stays O.part o.element o.family };

    ghost answers_stay = { λ o. SubsetAnswers-stay O.part o.element o.family };

    ghost splits_stay = { λ o. SubsetSplits-stay O.part o.element o.family };

    ghost depth_stays = { λ o. subset_depth-stays O.part o.element o.family };

    ghost overflow_hi = { λ o w t x a b d s bad. bad };

    ghost overflow_lo = { λ o w t x a b d s bad. bad };

    ghost extra_stays = { λ _ _ _ _. refl };
}

impl<G: Grow, O: ByElement<G> + Drop> Operation<G> for OneElement<O> {
    ghost use Rattle.edge_bits.specs.declared.edges.Kind.TheVariants.{Zdd};
    ghost use Rattle.node_store.specs.Views.{Denotes};
    ghost use Rattle.zdd_ops.specs.Subsets.{HasElement, HasElement-grown, subset_at, subset_at-lasts, subset_work, subset_work-back};

    ghost kind = { Zdd };

    ghost asks = { λ o w. HasElement w o.family o.element };

    ghost answers = { λ o v w e. Denotes Zdd w e (subset_at O.part o.element v o.family) };

    ghost overflows = { λ _ _. ⊥ };

    ghost work = { λ o. subset_work O.part o.element o.family };

    fn answer_kind(&self) -> Kind {
        Kind::Zdd
    }

    fn run(self, store: &mut G, stack: &mut Stack) -> Result<Edge, Halt> {
        let task = Task::two(self.family, self.family);
        evaluate(store, stack, &Remembering(self), task)
    }

    ghost asks_stay = { λ o v w m. HasElement-grown m };

    ghost answers_last = { λ o. subset_at-lasts O.part o.element o.family };

    ghost overflows_back = { λ o v w m d over. over };

    ghost work_back = { λ o v w f m d. subset_work-back O.part o.element o.family v w f m d };
}

/// Where an element stands to a family.
#[derive(Clone, Copy, Drop)]
pub(crate) enum Standing {
    /// The family's node is that of the element or below it: both parts by the element.
    Here(Edge, Edge),
    /// The family's node is above: its variable number and its children.
    Above(u32, Edge, Edge),
}

/// Where the element of this variable number stands to a family.
pub(crate) fn place<G: Grow>(store: &mut G, edge: Edge, element: u32) -> Standing
    requires family { Is Zdd (G.view store.old) edge }
    requires element { IsVariable Zdd (G.view store.old) element }
    ensures kept { Kept (G.view store.old) (G.view store.new) }
    ensures place { IsStanding (G.view store.new) edge element result }
{
    match store.open(edge) {
        Opened::Inner(var, hi, lo) => {
            if var == element {
                return Standing::Here(hi, lo);
            }
            let level = store.level(var);
            let wanted = store.level(element);
            if level < wanted {
                Standing::Above(var, hi, lo)
            } else {
                Standing::Here(Edge::empty_family(), edge)
            }
        }
        Opened::Leaf(_) => Standing::Here(Edge::empty_family(), edge),
    }
}

/// The members with the element, without it.
#[derive(Drop)]
pub(crate) struct With;

impl<G: Grow> ByElement<G> for With {
    ghost use Rattle.function_laws.specs.Families.{subset1};
    ghost use Rattle.zdd_ops.specs.Elementwise.{subset1-lacks, subset1-other};

    ghost part = { subset1 };

    fn answer(&self, store: &mut G, _var: u32, hi: Edge, _lo: Edge) -> Result<Edge, Stop> {
        tell_permanent(store);
        Ok(hi)
    }

    ghost other = { subset1-other };

    ghost lacks = { subset1-lacks };
}

/// The members without the element.
#[derive(Drop)]
pub(crate) struct Without;

impl<G: Grow> ByElement<G> for Without {
    ghost use Rattle.function_laws.specs.Families.{subset0};
    ghost use Rattle.zdd_ops.specs.Elementwise.{subset0-lacks, subset0-other};

    ghost part = { subset0 };

    fn answer(&self, store: &mut G, _var: u32, _hi: Edge, lo: Edge) -> Result<Edge, Stop> {
        tell_permanent(store);
        Ok(lo)
    }

    ghost other = { subset0-other };

    ghost lacks = { subset0-lacks };
}

/// The members with the element toggled.
#[derive(Drop)]
pub(crate) struct Toggled;

impl<G: Grow> ByElement<G> for Toggled {
    ghost use Rattle.function_laws.specs.Families.{change};
    ghost use Rattle.zdd_ops.specs.Elementwise.{change-lacks, change-other};

    ghost part = { change };

    fn answer(&self, store: &mut G, var: u32, hi: Edge, lo: Edge) -> Result<Edge, Stop> {
        store.make(var, lo, hi)
    }

    ghost other = { change-other };

    ghost lacks = { change-lacks };
}
