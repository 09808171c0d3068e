//! A function restricted to a condition: simpler, and the same where the condition holds (Coudert and Madre 1990).

ghost use Rattle.std.specs.Prelude.{◌≡◌, ◌≤◌, ◌*◌, IfOk, IsErrOf, false, true};
ghost use Rattle.edge_bits.specs.declared.edges.Kind.TheVariants.{Bdd};
ghost use Rattle.function_laws.specs.Restrictions.{IsNowhere};
ghost use Rattle.node_store.specs.Operations.{RunsTo};
ghost use Rattle.node_store.specs.Edges.{flip_if as flipped_edge};
ghost use Rattle.node_store.specs.Views.{View, AreTwo, Is, Kept, Permanent, Rose, bdd_at};
ghost use Rattle.node_store.specs.Work.{IsWork, Moves};
ghost use Rattle.node_store.specs.declared.operator.Task.{Task};
ghost use Rattle.quantify_ops.specs.Restricted.{CanBranch, IsCondition, IsKnownRestriction, LeadsLevel, LiftIs, RestrictAnswers, RestrictAsks, RestrictDue, Restricted, restrict_key, work_of_restrict};

use edge_bits::{Edge, Kind, TRUE_SLOT};
use ite_core::nested::or;
use node_store::binary::flip_if;
use node_store::evaluate::evaluate;
use node_store::operator::{Frame, Halt, Next, Operator, Task, Turn, Wait};
use node_store::parts::parts;
use node_store::scratch::Operation;
use node_store::{Grow, Key, Opened, Stack, numbers};

/// A restriction, as the evaluator runs it: each task is a function and a condition that holds somewhere.
#[derive(Drop)]
pub(crate) struct Restriction {
    pub f: Edge,
    pub c: Edge,
}

impl<G: Grow> Operator<G> for Restriction {
    ghost use Rattle.std.specs.Prelude.{refl};
    ghost use Rattle.edge_bits.specs.declared.edges.Kind.TheVariants.{Bdd};
    ghost use Rattle.node_store.specs.BinaryLaws.{BinaryMoves, BinaryMoves-none, BinaryMoves-both};
    ghost use Rattle.node_store.specs.Two.{two_depth};
    ghost use Rattle.node_store.specs.TwoLaws.{AreTwo-grown, two_depth-stays};
    ghost use Rattle.node_store.specs.Views.{AreTwo};
    ghost use Rattle.node_store.specs.Work.{IsWork};
    ghost use Rattle.quantify_ops.specs.Restricted.{RestrictAnswers, RestrictDue, RestrictWaits, work_of_restrict};
    ghost use Rattle.quantify_ops.specs.RestrictedLasts.{RestrictAnswers-stay, RestrictDue-stays, RestrictWaits-stay, operands, work_of_restrict-stays};

    ghost moves = { λ o. BinaryMoves (λ w. AreTwo Bdd w o.f o.c) (work_of_restrict o.f o.c) };

    ghost due = { λ o w. RestrictDue o.f o.c w.view };

    ghost answers = { λ _ w. RestrictAnswers w.view };

    ghost overflows = { λ _ _ _. ⊥ };

    ghost waits = { λ o w. RestrictWaits o.f o.c w.view };

    ghost refused = { λ o w. IsWork w.view (work_of_restrict o.f o.c w.view) w.view.due };

    ghost depth = { λ _ w. two_depth Bdd w.view };

    ghost extra = { λ _ w. w.view.vars };

    fn start(&self, store: &mut G, stack: &mut Stack, task: Task) -> Result<Next, Halt> {
        // A complement's restriction is the restriction's complement.
        let flip = task.f.complement();
        let f = task.f.regular();
        let Opened::Inner(var, hi, lo) = store.open(f) else {
            return Ok(Next::Done(task.f));
        };
        if let Some(edge) = known(f, task.g) {
            return Ok(Next::Done(flip_if(edge, flip)));
        }
        if let Some(edge) = store.memo_get(&key_of(f, task.g)) {
            return Ok(Next::Done(flip_if(edge, flip)));
        }
        let regular = Task::two(f, task.g);
        let level = store.level(var);
        let Some(condition) = self.lift(store, stack, task.g, level)? else {
            let (frame, child) = self.branch(store, regular, flip, var, hi, lo);
            return Ok(Next::Call(frame, child));
        };
        let frame = Frame {
            task: regular,
            var,
            flip,
            wait: Wait::Only,
        };
        Ok(Next::Call(frame, Task::two(f, condition)))
    }

    fn resume(
        &self,
        store: &mut G,
        _stack: &mut Stack,
        frame: Frame,
        answer: Edge,
    ) -> Result<Turn, Halt> {
        let Frame {
            task,
            var,
            flip,
            wait,
        } = frame;
        match wait {
            Wait::Only => Ok(Turn::Done(self.keep(store, task, flip, answer))),
            Wait::First(later) => Ok(Turn::Call(Wait::Second(answer), later)),
            Wait::Second(hi) => {
                let edge = store.make(var, hi, answer)?;
                Ok(Turn::Done(self.keep(store, task, flip, edge)))
            }
            _ => unreachable!(),
        }
    }

    ghost moves_none = { λ o. BinaryMoves-none (λ w. AreTwo Bdd w o.f o.c) (work_of_restrict o.f o.c) };

    ghost moves_both = { λ o. BinaryMoves-both (λ w. AreTwo Bdd w o.f o.c) (work_of_restrict o.f o.c) (λ v w m d. AreTwo-grown Bdd m d) (work_of_restrict-stays o.f o.c) };

    ghost moves_fulls = { λ o v w m. m.moves.grown.fulls };

    ghost moves_wants = { λ o v w m. m.moves.grown.wants };

    ghost due_stays = { λ o v w t m. RestrictDue-stays o.f o.c v.view w.view t m.moves.grown };

    ghost answers_stay = { λ o v w t e m d. RestrictAnswers-stay v.view w.view t e m.moves.grown (operands o.f o.c v.view t d) };

    ghost waits_stay = { λ o v w t f u m. RestrictWaits-stay o.f o.c v.view w.view t f u m.moves.grown };

    ghost depth_stays = { λ o v w t m d. two_depth-stays Bdd v.view w.view t m.moves.grown (operands o.f o.c v.view t d) };

    ghost overflow_rises = { λ o w t f u d waits bad. bad };

    ghost extra_stays = { λ o v w m. m.moves.grown.vars };
}

impl Restriction {
    /// The condition with its top variable quantified, if that stands above a level.
    fn lift<G: Grow>(
        &self,
        store: &mut G,
        stack: &mut Stack,
        condition: Edge,
        level: u32,
    ) -> Result<Option<Edge>, Halt>
        requires permanent { Permanent (G.view store.old) }
        requires roots { AreTwo Bdd (G.view store.old) self.now.f self.now.c }
        requires condition { IsCondition self.now.c (G.view store.old) condition }
        requires within { level ≤ (G.view store.old).vars }
        requires room { (G.view store.old).vars ≤ stack.old.free }
        ensures moved { Moves (λ w. AreTwo Bdd w self.now.f self.now.c) (work_of_restrict self.now.f self.now.c) (G.view store.old) (G.view store.new) }
        ensures lifted { IfOk result (LiftIs self.now.c (G.view store.new) condition level) }
        ensures memory { IsErrOf result Halt.Memory → (G.view store.old).may_want_memory ≡ true }
        ensures due { IsErrOf result Halt.Full → IsWork (G.view store.new) (work_of_restrict self.now.f self.now.c (G.view store.new)) (G.view store.new).due }
        ensures full { IsErrOf result Halt.Full → Rose (G.view store.old) (G.view store.new) }
        ensures overflow { IsErrOf result Halt.Overflow → ⊥ }
        ensures stack { stack.new ≡ stack.old }
    {
        let Opened::Inner(var, hi, lo) = store.open(condition) else {
            return Ok(None);
        };
        if store.level(var) >= level {
            return Ok(None);
        }
        let lifted = or(store, stack, hi, lo)?;
        // Its top variable stands lower, which only its node tells.
        let _top = store.open(lifted);
        Ok(Some(lifted))
    }

    /// The frame of a task and the branch for which it waits first: the one that is taken alone, or the then branch.
    fn branch<G: Grow>(
        &self,
        store: &mut G,
        task: Task,
        flip: bool,
        var: u32,
        hi: Edge,
        lo: Edge,
    ) -> (Frame, Task)
        requires { CanBranch self.now.f self.now.c (G.view store.old) task var hi lo }
        ensures kept { Kept (G.view store.old) (G.view store.new) }
        ensures asks { (root : Task) → LeadsLevel (G.view store.old) root flip task → RestrictAsks self.now.f self.now.c (G.view store.new) root result.0 result.1 }
    {
        let (c1, c0) = parts(store, task.g, var);
        let then_task = Task::two(hi, c1);
        let else_task = Task::two(lo, c0);
        let only = Frame {
            task,
            var,
            flip,
            wait: Wait::Only,
        };
        if is_false(store, c1) {
            return (only, else_task);
        }
        if is_false(store, c0) {
            return (only, then_task);
        }
        let first = Frame {
            wait: Wait::First(else_task),
            ..only
        };
        (first, then_task)
    }

    /// Keeps the answer of a task, and gives it the complement where it is asked for.
    fn keep<G: Grow>(&self, store: &mut G, task: Task, flip: bool, answer: Edge) -> Edge
        requires due { RestrictDue self.now.f self.now.c (G.view store.old) task }
        requires answer { RestrictAnswers (G.view store.old) task answer }
        ensures kept { Kept (G.view store.old) (G.view store.new) }
        ensures flipped { result ≡ flipped_edge flip answer }
    {
        store.memo_put(key_of(task.f, task.g), answer);
        flip_if(answer, flip)
    }
}

/// A function restricted to a condition, on this stack.
pub(crate) fn simplify<G: Grow>(
    store: &mut G,
    stack: &mut Stack,
    f: Edge,
    c: Edge,
) -> Result<Edge, Halt>
    requires operands { AreTwo Bdd (G.view store.old) f c }
    requires permanent { Permanent (G.view store.old) }
    requires room { 2 * (G.view store.old).vars ≤ stack.old.free }
    ensures runs { RunsTo (Restricted (G.view store.old) (G.view store.new) f c) ⊥ (work_of_restrict f c (G.view store.old)) (G.view store.old) (G.view store.new) result }
    ensures stack { stack.new ≡ stack.old }
{
    if is_false(store, c) {
        return Ok(Edge::truth(false));
    }
    evaluate(store, stack, &Restriction { f, c }, Task::two(f, c))
}

impl<G: Grow> Operation<G> for Restriction {
    ghost use Rattle.edge_bits.specs.declared.edges.Kind.TheVariants.{Bdd};
    ghost use Rattle.node_store.specs.TwoLaws.{AreTwo-grown};
    ghost use Rattle.node_store.specs.Views.{AreTwo};
    ghost use Rattle.quantify_ops.specs.Restricted.{Restricted, work_of_restrict};
    ghost use Rattle.quantify_ops.specs.RestrictedLasts.{Restricted-lasts, work_of_restrict-back};

    ghost kind = { Bdd };

    ghost asks = { λ o w. AreTwo Bdd w o.f o.c };

    ghost answers = { λ o v w. Restricted v w o.f o.c };

    ghost overflows = { λ _ _. ⊥ };

    ghost work = { λ o. work_of_restrict o.f o.c };

    fn answer_kind(&self) -> Kind {
        Kind::Bdd
    }

    fn run(self, store: &mut G, stack: &mut Stack) -> Result<Edge, Halt> {
        simplify(store, stack, self.f, self.c)
    }

    ghost asks_stay = { λ o v w m d. AreTwo-grown Bdd m d };

    ghost answers_last = { λ o. Restricted-lasts o.f o.c };

    ghost overflows_back = { λ o v w m d bad. bad };

    ghost work_back = { λ o v w h m d. work_of_restrict-back v w o.f o.c m d h };
}

/// Whether a function is false.
fn is_false<G: Grow>(store: &mut G, edge: Edge) -> bool
    requires { Is Bdd (G.view store.old) edge }
    ensures kept { Kept (G.view store.old) (G.view store.new) }
    ensures yes { result ≡ true → IsNowhere (bdd_at (G.view store.new) edge) }
    ensures no { result ≡ false → IsNowhere (bdd_at (G.view store.new) edge) → ⊥ }
{
    match store.open(edge) {
        Opened::Inner(_, _, _) => false,
        Opened::Leaf(_) => edge.complement(),
    }
}

/// The answer where the condition is true, or is the function or its complement.
fn known(f: Edge, condition: Edge) -> Option<Edge>
    ensures { (w : View) → Permanent w → AreTwo Bdd w f condition → (IsNowhere (bdd_at w condition) → ⊥) → IsKnownRestriction w (record { f = f; g = condition; h = f }) result }
{
    if condition.index() == TRUE_SLOT {
        return Some(f);
    }
    if condition.index() == f.index() {
        return Some(Edge::truth(f.complement() == condition.complement()));
    }
    None
}

/// The key of a regular function and a condition.
fn key_of(f: Edge, condition: Edge) -> Key
    ensures { result ≡ restrict_key f condition }
{
    Key {
        op: numbers::RESTRICT,
        f,
        g: condition,
        h: f,
    }
}
