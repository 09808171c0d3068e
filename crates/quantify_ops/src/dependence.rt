//! The product of the variables on which a function depends, which a walk over its nodes marks.

ghost use Rattle.std.specs.Prelude.{◌≡◌, ◌≤◌, IfOk, IsErrOf, length, true};
ghost use Rattle.edge_bits.specs.declared.edges.Kind.TheVariants.{Bdd};
ghost use Rattle.function_laws.specs.Cubes.{IsSupport};
ghost use Rattle.function_laws.specs.Values.{support as support_of};
ghost use Rattle.node_store.specs.Operations.{Runs};
ghost use Rattle.node_store.specs.Remembering.{IsBlank};
ghost use Rattle.node_store.specs.Stacks.{levels_in};
ghost use Rattle.node_store.specs.Views.{Is, Kept, Permanent, bdd_at};
ghost use Rattle.quantify_ops.specs.Products.{AreMarks, marked_product};
ghost use Rattle.quantify_ops.specs.Supports.{regular_edge, support_key};
ghost use Rattle.quantify_ops.specs.Works.{value_of_support};

use crate::products::product_of_marks;
use edge_bits::{Edge, Kind};
use node_store::evaluate::evaluate;
use node_store::operator::{Frame, Halt, Next, Operator, Task, Turn, Wait};
use node_store::scratch::Operation;
use node_store::{Grow, Key, Opened, Stack, numbers};

/// The walk over a function, as the evaluator runs it: each task is a node's function with no complement. Its answer is any edge; what counts is that each variable of the function is marked.
#[derive(Drop)]
pub(crate) struct Dependence {
    pub f: Edge,
}

impl<G: Grow> Operator<G> for Dependence {
    ghost use Rattle.std.specs.Prelude.{refl};
    ghost use Rattle.ite_core.specs.Cofactors.{one_depth};
    ghost use Rattle.ite_core.specs.CofactorLasts.{one_depth-stays};
    ghost use Rattle.quantify_ops.specs.Supports.{WalkAnswers, WalkDue, WalkMoves, WalkWaits};
    ghost use Rattle.quantify_ops.specs.SupportLasts.{WalkAnswers-stay, WalkDue-stays, WalkMoves-none, WalkMoves-both, WalkWaits-stay};

    ghost moves = { λ o. WalkMoves o.f };

    ghost due = { λ o. WalkDue o.f };

    ghost answers = { λ _. WalkAnswers };

    ghost overflows = { λ _ _ _. ⊥ };

    ghost waits = { λ o. WalkWaits o.f };

    ghost refused = { λ _ _. ⊥ };

    ghost depth = { λ _ w. one_depth w.view };

    ghost extra = { λ _ _. 0 };

    fn start(&self, store: &mut G, stack: &mut Stack, task: Task) -> Result<Next, Halt> {
        let Task { f, g, h } = task;
        if let Some(edge) = stack.recall(Task { f, g, h }) {
            return Ok(Next::Done(edge));
        }
        let Opened::Inner(var, hi, lo) = store.open(f) else {
            return Ok(Next::Done(f));
        };
        let level = store.level(var);
        stack.mark(level, var);
        let frame = Frame {
            task: Task { f, g, h },
            var,
            flip: false,
            wait: Wait::First(regular_task(lo)),
        };
        Ok(Next::Call(frame, regular_task(hi)))
    }

    fn resume(
        &self,
        _store: &mut G,
        stack: &mut Stack,
        frame: Frame,
        answer: Edge,
    ) -> Result<Turn, Halt> {
        let Frame { task, wait, .. } = frame;
        match wait {
            Wait::First(later) => Ok(Turn::Call(Wait::Second(answer), later)),
            Wait::Second(_) => {
                stack.remember(task, answer);
                Ok(Turn::Done(answer))
            }
            _ => unreachable!(),
        }
    }

    ghost moves_none = { λ o. WalkMoves-none o.f };

    ghost moves_both = { λ o. WalkMoves-both o.f };

    ghost moves_fulls = { λ o v w m. m.kept.grown.fulls };

    ghost moves_wants = { λ o v w m. m.kept.grown.wants };

    ghost due_stays = { λ o. WalkDue-stays o.f };

    ghost answers_stay = { λ o v w t e m d. WalkAnswers-stay o.f v w t e m d };

    ghost waits_stay = { λ o. WalkWaits-stay o.f };

    ghost depth_stays = { λ o v w t m d. one_depth-stays v.view w.view t m.kept.grown d.edge };

    ghost overflow_rises = { λ o w t f u d waits bad. bad };

    ghost extra_stays = { λ o v w m. refl };
}

/// The task of a function or its complement.
fn regular_task(f: Edge) -> Task
    ensures { result.f ≡ regular_edge f }
{
    let f = f.regular();
    Task::two(f, f)
}

/// Marks the levels of the variables on which a function depends, and no others. The table of answers has to be blank.
fn mark_support<G: Grow>(store: &mut G, stack: &mut Stack, f: Edge) -> Result<Edge, Halt>
    requires operand { Is Bdd (G.view store.old) f }
    requires room { (G.view store.old).vars ≤ levels_in stack.old }
    requires blank { IsBlank stack.old.answers }
    ensures kept { Kept (G.view store.old) (G.view store.new) }
    ensures marks { IfOk result (λ _. AreMarks (G.view store.new) stack.new.marks) }
    ensures support { IfOk result (λ _. IsSupport (bdd_at (G.view store.old) f) (marked_product stack.new.marks)) }
    ensures memory { IsErrOf result Halt.Memory → (G.view store.old).may_want_memory ≡ true }
    ensures full { IsErrOf result Halt.Full → ⊥ }
    ensures overflow { IsErrOf result Halt.Overflow → ⊥ }
    ensures frames { stack.new.frames ≡ stack.old.frames }
    ensures free { stack.new.free ≡ stack.old.free }
    ensures length { length stack.new.marks ≡ length stack.old.marks }
{
    stack.clear_marks();
    evaluate(store, stack, &Dependence { f }, regular_task(f))
}

/// The product of the variables on which a function depends, on this stack, whose marks and blank table it uses.
pub(crate) fn collect<G: Grow>(store: &mut G, stack: &mut Stack, f: Edge) -> Result<Edge, Halt>
    requires operand { Is Bdd (G.view store.old) f }
    requires room { (G.view store.old).vars ≤ levels_in stack.old }
    requires blank { IsBlank stack.old.answers }
    ensures runs { Runs Bdd (support_of (G.view store.old).vars (bdd_at (G.view store.old) f)) (value_of_support f (G.view store.old)) (G.view store.old) (G.view store.new) result }
    ensures frames { stack.new.frames ≡ stack.old.frames }
    ensures free { stack.new.free ≡ stack.old.free }
    ensures length { length stack.new.marks ≡ length stack.old.marks }
{
    let key = key_of(f);
    if let Some(edge) = store.memo_get(&key) {
        return Ok(edge);
    }
    let _reached = mark_support(store, stack, f)?;
    let levels = store.levels(Kind::Bdd);
    let cube = product_of_marks(store, stack, levels)?;
    store.memo_put(key, cube);
    Ok(cube)
}

impl<G: Grow> Operation<G> for Dependence {
    ghost use Rattle.edge_bits.specs.declared.edges.Kind.TheVariants.{Bdd};
    ghost use Rattle.function_laws.specs.Values.{support};
    ghost use Rattle.node_store.specs.Views.{Denotes, Is, bdd_at};
    ghost use Rattle.node_store.specs.ViewLaws.{Is-grown};
    ghost use Rattle.quantify_ops.specs.Works.{value_of_support};
    ghost use Rattle.quantify_ops.specs.WorksLasts.{support-lasts, value_of_support-back};

    ghost kind = { Bdd };

    ghost asks = { λ o w. Is Bdd w o.f };

    ghost answers = { λ o v w e. Denotes Bdd w e (support v.vars (bdd_at v o.f)) };

    ghost overflows = { λ _ _. ⊥ };

    ghost work = { λ o. value_of_support o.f };

    fn answer_kind(&self) -> Kind {
        Kind::Bdd
    }

    fn run(self, store: &mut G, stack: &mut Stack) -> Result<Edge, Halt> {
        collect(store, stack, self.f)
    }

    ghost asks_stay = { λ o v w m d. Is-grown Bdd m d };

    ghost answers_last = { λ o. support-lasts o.f };

    ghost overflows_back = { λ o v w m d bad. bad };

    ghost work_back = { λ o v w h m d. value_of_support-back v w o.f m d h };
}

/// A function and its complement have one support.
fn key_of(f: Edge) -> Key
    ensures { result ≡ support_key f }
{
    let f = f.regular();
    Key {
        op: numbers::SUPPORT,
        f,
        g: f,
        h: f,
    }
}
