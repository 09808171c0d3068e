//! The function of a cover, as the evaluator runs it.

ghost use Rattle.std.specs.Prelude.{◌≡◌, ◌≤◌, ◌+◌};
ghost use Rattle.edge_bits.specs.declared.edges.Kind.TheVariants.{Bdd};
ghost use Rattle.function_laws.specs.Kinds.{BddFunction};
ghost use Rattle.node_store.specs.Memo.{last_of};
ghost use Rattle.node_store.specs.Operations.{Runs, halts};
ghost use Rattle.node_store.specs.Splits.{Expanded};
ghost use Rattle.node_store.specs.Views.{Denotes, Is, Kept, Permanent, bdd_at, family_at};
ghost use Rattle.zdd_ops.specs.Subsets.{subset_depth};
ghost use Rattle.cover_isop.specs.Covers.{AreVariables, CoverAnswers, CoverDue, CoverSplits, HasCover, cover_at, cover_key, cover_work, narrowed};

use edge_bits::{BASE_SLOT, EMPTY_SLOT, Edge, FIRST_ELEMENT};
use ite_core::nested::{and, or};
use node_store::binary::{Apply, Binary, Branch, Expansion, flip_if};
use node_store::evaluate::evaluate;
use node_store::operator::{Halt, Task};
use node_store::{Grow, Key, Opened, Stack, Stop, numbers};

/// The function of a cover of so many variables, as the evaluator runs it. A task's family splits at its first element, wherever the other literal of that variable stands.
#[derive(Drop)]
struct Covering {
    family: Edge,
    vars: u32,
    /// What stands for the number of variables in a key.
    last: Edge,
}

impl<G: Grow> Apply<G> for Covering {
    ghost use Rattle.zdd_ops.specs.Subsets.{subset_depth};
    ghost use Rattle.cover_isop.specs.Covers.{CoverAnswers, CoverDue, CoverSplits, HasCover, cover_work};
    ghost use Rattle.cover_isop.specs.CoverLasts.{CoverAnswers-stay, CoverDue-stays, CoverSplits-stay, HasCover-grown, cover_depth-stays, cover_work-stays};

    ghost roots = { λ o w. HasCover o.vars w o.family };

    ghost work = { λ o. cover_work o.vars o.family };

    ghost due = { λ o. CoverDue o.vars o.family o.last };

    ghost answers = { λ o. CoverAnswers o.vars };

    ghost overflows = { λ _ _ _. ⊥ };

    ghost splits = { λ _. CoverSplits };

    ghost depth = { λ _. subset_depth };

    ghost extra = { λ _ w. w.vars };

    fn expand(&self, store: &mut G, task: Task) -> Result<Expansion, Halt> {
        Ok(self.expansion(store, task))
    }

    fn join(
        &self,
        store: &mut G,
        stack: &mut Stack,
        _task: Task,
        var: u32,
        hi: Edge,
        lo: Edge,
    ) -> Result<Edge, Halt> {
        let with = narrow(store, stack, self.vars, var - FIRST_ELEMENT, hi)?;
        Ok(or(store, stack, with, lo)?)
    }

    fn key(&self, task: Task) -> Option<Key> {
        Some(key_of(task.f, self.last))
    }

    ghost roots_stay = { λ o v w m d. HasCover-grown m d };

    ghost work_stays = { λ o. cover_work-stays o.vars o.family };

    ghost due_stays = { λ o. CoverDue-stays o.vars o.family o.last };

    ghost answers_stay = { λ o v w t e m d. CoverAnswers-stay o.vars v w t e m d.family };

    ghost splits_stay = { λ o v w t x a b m d. CoverSplits-stay v w t x a b m d.family };

    ghost depth_stays = { λ o v w t m d. cover_depth-stays v w t m d.family };

    ghost overflow_hi = { λ o w t x a b d s bad. bad };

    ghost overflow_lo = { λ o w t x a b d s bad. bad };

    ghost extra_stays = { λ o v w m. m.vars };
}

impl Covering {
    /// The answer of a task, or its parts.
    fn expansion<G: Grow>(&self, store: &mut G, task: Task) -> Expansion
        requires { CoverDue self.now.vars self.now.family self.now.last (G.view store.old) task }
        ensures kept { Kept (G.view store.old) (G.view store.new) }
        ensures expanded { Expanded (CoverDue self.now.vars self.now.family self.now.last) (CoverAnswers self.now.vars) (λ _ _. ⊥) CoverSplits subset_depth (G.view store.new) task result }
    {
        let Task { f, g, h } = task;
        if f.index() == EMPTY_SLOT {
            return Expansion::Done(Edge::truth(false));
        }
        if f.index() == BASE_SLOT {
            return Expansion::Done(Edge::truth(true));
        }
        if let Some(edge) = store.memo_get(&key_of(f, self.last)) {
            return Expansion::Done(edge);
        }
        match store.open(f) {
            Opened::Inner(var, hi, lo) => Expansion::Split(Branch {
                task: Task { f, g, h },
                flip: false,
                var,
                hi: Task::two(hi, hi),
                lo: Task::two(lo, lo),
            }),
            Opened::Leaf(_) => unreachable!(),
        }
    }
}

/// A function times the literal that an element is, if it is one of so many variables.
fn narrow<G: Grow>(
    store: &mut G,
    stack: &mut Stack,
    vars: u32,
    element: u32,
    f: Edge,
) -> Result<Edge, Stop>
    requires operand { Is Bdd (G.view store.old) f }
    requires variables { AreVariables (G.view store.old) vars }
    requires permanent { Permanent (G.view store.old) }
    requires room { (G.view store.old).vars ≤ stack.old.free }
    ensures runs { Runs Bdd (narrowed vars element (bdd_at (G.view store.old) f)) (λ F. F ≡ BddFunction (narrowed vars element (bdd_at (G.view store.old) f))) (G.view store.old) (G.view store.new) (halts result) }
    ensures stack { stack.new ≡ stack.old }
{
    let var = element / 2;
    if var >= vars {
        return Ok(f);
    }
    let projection = store.projection(var);
    let literal = flip_if(projection, element % 2 != 0);
    and(store, stack, f, literal)
}

/// The function of a cover of so many variables, on this stack.
pub(crate) fn cover<G: Grow>(
    store: &mut G,
    stack: &mut Stack,
    family: Edge,
    vars: u32,
) -> Result<Edge, Halt>
    requires operands { HasCover vars (G.view store.old) family }
    requires permanent { Permanent (G.view store.old) }
    requires room { (G.view store.old).vars + (G.view store.old).elements ≤ stack.old.free }
    ensures runs { Runs Bdd (cover_at vars (G.view store.old) (family_at (G.view store.old) family)) (cover_work vars family (G.view store.old)) (G.view store.old) (G.view store.new) result }
    ensures stack { stack.new ≡ stack.old }
{
    let last = last_variable(store, vars);
    let op = Binary(Covering { family, vars, last });
    evaluate(store, stack, &op, Task::two(family, family))
}

/// The projection of the last of so many variables, or the constant one where there are none.
fn last_variable<G: Grow>(store: &mut G, vars: u32) -> Edge
    requires variables { AreVariables (G.view store.old) vars }
    requires permanent { Permanent (G.view store.old) }
    ensures kept { Kept (G.view store.old) (G.view store.new) }
    ensures last { Denotes Bdd (G.view store.new) result (last_of vars) }
{
    if vars == 0 {
        return Edge::truth(true);
    }
    store.projection(vars - 1)
}

/// The key of a cover, with the edge that tells how many variables there are.
fn key_of(f: Edge, last: Edge) -> Key
    ensures { result ≡ cover_key f last }
{
    Key {
        op: numbers::COVER_OF,
        f,
        g: last,
        h: f,
    }
}
