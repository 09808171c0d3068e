//! Morreale's calls (Minato 1993), as the evaluator runs them.

ghost use Rattle.std.specs.Prelude.{◌≡◌, ◌≤◌};
ghost use Rattle.zdd_ops.specs.Rooms.{KeepsRoom};
ghost use Rattle.cover_isop.specs.Isops.{AreAnswered, Does, IsFurther, IsSplit, MorrealeAnswers, MorrealeDue, Shows, both_at, cover_in, high_at, low_at, morreale_extra};

use crate::calls::{Half, Sides, first_variable, sides_of, without};
use edge_bits::Edge;
use ite_core::nested::{and, or};
use node_store::operator::{Frame, Halt, Next, Operator, Task, Turn, Wait};
use node_store::parts::look;
use node_store::{Grow, Key, Stack, Stop};

/// What is asked of the calls between two bounds: the cover, or its function.
pub(crate) trait Wanted<G: Grow> {
    ghost use Rattle.std.specs.Prelude.{◌≡◌, ◌≤◌, Bool};
    ghost use Rattle.edge_bits.specs.declared.edges.Edge.{Edge};
    ghost use Rattle.edge_bits.specs.declared.edges.Kind.TheVariants.{Bdd};
    ghost use Rattle.function_laws.specs.Families.{base, empty};
    ghost use Rattle.node_store.specs.Views.{View, Denotes, Permanent};
    ghost use Rattle.zdd_ops.specs.Rooms.{KeepsRoom};
    ghost use Rattle.cover_isop.specs.Isops.{AreAnswered, Does, IsHalf, MorrealeAnswers, Shows, cover_in, function_in, half_at, morreale_extra, number_of};

    /// Whether it is the cover.
    ghost family: { Bool };

    /// The bounds of the first call.
    ghost lower: { Self → Edge };

    ghost upper: { Self → Edge };

    /// The answer where the lower bound is false everywhere.
    fn nothing(&self) -> Edge
        ensures { (w : View) → Permanent w → Shows family w empty result };

    /// The answer where the upper bound is true everywhere and the lower one somewhere, or where they are constants out of order.
    fn everything(&self) -> Edge
        ensures { (w : View) → Permanent w → Shows family w base result };

    /// The number under which answers are kept.
    fn number(&self) -> u8
        ensures { result ≡ number_of family };

    /// The function of the cover of a half's call, from the answer of that call.
    fn function(
        &self,
        store: &mut G,
        stack: &mut Stack,
        half: Half,
        answer: Edge,
    ) -> Result<Edge, Stop>
        requires half { IsHalf (lower self.now) (upper self.now) (G.view store.old) half.lower half.upper half.other }
        requires answer { Shows family (G.view store.old) (cover_in (G.view store.old) (half_at (G.view store.old) half.lower half.upper half.other)) answer }
        requires room { morreale_extra family (G.view store.old) ≤ stack.old.free }
        ensures does { Does (λ e. Denotes Bdd (G.view store.new) e (function_in (G.view store.old) (half_at (G.view store.old) half.lower half.upper half.other))) (lower self.now) (upper self.now) (G.view store.old) (G.view store.new) result }
        ensures scratch { KeepsRoom stack.old stack.new };

    /// The answer of a task from those of its three calls, of the half where the variable is 0, of that where it is 1, and of both.
    fn join(
        &self,
        store: &mut G,
        stack: &mut Stack,
        task: Task,
        var: u32,
        low: Edge,
        high: Edge,
        both: Edge,
    ) -> Result<Edge, Stop>
        requires answered { AreAnswered family (lower self.now) (upper self.now) (G.view store.old) task var low high both }
        requires room { morreale_extra family (G.view store.old) ≤ stack.old.free }
        ensures does { Does (MorrealeAnswers family (G.view store.new) task) (lower self.now) (upper self.now) (G.view store.old) (G.view store.new) result }
        ensures scratch { KeepsRoom stack.old stack.new };
}

/// Morreale's calls. A task's answer comes from those of three calls at its topmost variable: of the half where it is 0, of the half where it is 1, and of what their answers leave uncovered.
#[derive(Drop)]
pub(crate) struct Morreale<W>(pub W);

impl<G: Grow, W: Wanted<G>> Operator<G> for Morreale<W> {
    ghost use Rattle.cover_isop.specs.Isops.{HasBounds, MorrealeAnswers, MorrealeDue, MorrealeWaits, isop_work, morreale_depth, morreale_extra};
    ghost use Rattle.cover_isop.specs.IsopLasts.{IsopMoves, IsopMoves-both, IsopMoves-none, MorrealeAnswers-stay, MorrealeDue-stays, MorrealeWaits-stay, morreale_depth-stays, morreale_extra-stays};
    ghost use Rattle.node_store.specs.Work.{IsWork};

    ghost moves = { λ o. IsopMoves (W.lower o.0) (W.upper o.0) };

    ghost due = { λ o w. MorrealeDue (W.lower o.0) (W.upper o.0) w.view };

    ghost answers = { λ _ w. MorrealeAnswers W.family w.view };

    ghost overflows = { λ _ _ _. ⊥ };

    ghost waits = { λ o w. MorrealeWaits W.family (W.lower o.0) (W.upper o.0) w.view };

    ghost refused = { λ o w. IsWork w.view (isop_work (W.lower o.0) (W.upper o.0) w.view) w.view.due };

    ghost depth = { λ _ w. morreale_depth w.view };

    ghost extra = { λ _ w. morreale_extra W.family w.view };

    fn start(&self, store: &mut G, stack: &mut Stack, task: Task) -> Result<Next, Halt> {
        if task.f == Edge::truth(false) {
            return Ok(Next::Done(self.0.nothing()));
        }
        if task.g == Edge::truth(true) {
            // Opened, the lower bound shows that it is true somewhere.
            let _lower = look(store, task.f);
            return Ok(Next::Done(self.0.everything()));
        }
        let key = key_of(self.0.number(), task.f, task.g);
        if let Some(edge) = store.memo_get(&key) {
            return Ok(Next::Done(edge));
        }
        let Some(var) = first_variable(store, task) else {
            return Ok(Next::Done(self.0.everything()));
        };
        let Sides { hi, lo } = sides_of(store, task, var);
        let low = without(store, stack, lo.f, hi.g)?;
        let high = without(store, stack, hi.f, lo.g)?;
        let frame = Frame {
            task,
            var,
            flip: false,
            wait: Wait::First(Task::two(high, hi.g)),
        };
        Ok(Next::Call(frame, Task::two(low, lo.g)))
    }

    fn resume(
        &self,
        store: &mut G,
        stack: &mut Stack,
        frame: Frame,
        answer: Edge,
    ) -> Result<Turn, Halt> {
        let Frame {
            task,
            var,
            wait,
            ..
        } = frame;
        match wait {
            Wait::First(later) => Ok(Turn::Call(Wait::Second(answer), later)),
            Wait::Second(low) => {
                let child = third_call(store, stack, &self.0, task, var, low, answer)?;
                Ok(Turn::Call(Wait::Third(low, answer), child))
            }
            Wait::Third(low, high) => {
                let edge = finish(store, stack, &self.0, task, var, low, high, answer)?;
                Ok(Turn::Done(edge))
            }
            _ => unreachable!(),
        }
    }

    ghost moves_none = { λ o. IsopMoves-none (W.lower o.0) (W.upper o.0) };

    ghost moves_both = { λ o. IsopMoves-both (W.lower o.0) (W.upper o.0) };

    ghost moves_fulls = { λ o v w m. m.moves.grown.fulls };

    ghost moves_wants = { λ o v w m. m.moves.grown.wants };

    ghost due_stays = { λ o v w t m. MorrealeDue-stays (W.lower o.0) (W.upper o.0) v.view w.view t m.moves.grown };

    ghost answers_stay = { λ o v w t e m d. MorrealeAnswers-stay W.family v.view w.view t e m.moves.grown d.bounds.two };

    ghost waits_stay = { λ o v w t f u m d. MorrealeWaits-stay W.family (W.lower o.0) (W.upper o.0) v.view w.view t f u m.moves.grown d };

    ghost depth_stays = { λ o v w t m d. morreale_depth-stays v.view w.view t m.moves.grown d.bounds.two };

    ghost overflow_rises = { λ o w t f u d waits bad. bad };

    ghost extra_stays = { λ o v w m. morreale_extra-stays W.family v.view w.view m.moves.grown };
}

/// The third call of a task, for what the answers of the first two leave uncovered in each half.
fn third_call<G: Grow, W: Wanted<G>>(
    store: &mut G,
    stack: &mut Stack,
    wanted: &W,
    task: Task,
    var: u32,
    low: Edge,
    high: Edge,
) -> Result<Task, Stop>
    requires due { MorrealeDue (W.lower wanted.now) (W.upper wanted.now) (G.view store.old) task }
    requires split { IsSplit (G.view store.old) task var }
    requires low { Shows W.family (G.view store.old) (cover_in (G.view store.old) (low_at (G.view store.old) task var)) low }
    requires high { Shows W.family (G.view store.old) (cover_in (G.view store.old) (high_at (G.view store.old) task var)) high }
    requires room { morreale_extra W.family (G.view store.old) ≤ stack.old.free }
    ensures does { Does (IsFurther (W.lower wanted.now) (W.upper wanted.now) (G.view store.new) task (both_at (G.view store.new) task var)) (W.lower wanted.now) (W.upper wanted.now) (G.view store.old) (G.view store.new) result }
    ensures scratch { KeepsRoom stack.old stack.new }
{
    let Sides { hi, lo } = sides_of(store, task, var);
    let low_half = Half {
        lower: lo.f,
        upper: lo.g,
        other: hi.g,
    };
    let high_half = Half {
        lower: hi.f,
        upper: hi.g,
        other: lo.g,
    };
    let low_function = wanted.function(store, stack, low_half, low)?;
    let high_function = wanted.function(store, stack, high_half, high)?;
    let low_left = without(store, stack, lo.f, low_function)?;
    let high_left = without(store, stack, hi.f, high_function)?;
    let lower = or(store, stack, low_left, high_left)?;
    let upper = and(store, stack, lo.g, hi.g)?;
    Ok(Task::two(lower, upper))
}

/// The answer of a task from those of its three calls, which is kept.
fn finish<G: Grow, W: Wanted<G>>(
    store: &mut G,
    stack: &mut Stack,
    wanted: &W,
    task: Task,
    var: u32,
    low: Edge,
    high: Edge,
    both: Edge,
) -> Result<Edge, Stop>
    requires answered { AreAnswered W.family (W.lower wanted.now) (W.upper wanted.now) (G.view store.old) task var low high both }
    requires room { morreale_extra W.family (G.view store.old) ≤ stack.old.free }
    ensures does { Does (MorrealeAnswers W.family (G.view store.new) task) (W.lower wanted.now) (W.upper wanted.now) (G.view store.old) (G.view store.new) result }
    ensures scratch { KeepsRoom stack.old stack.new }
{
    let Task { f, g, h } = task;
    let edge = wanted.join(store, stack, Task { f, g, h }, var, low, high, both)?;
    let key = key_of(wanted.number(), f, g);
    store.memo_put(key, edge);
    Ok(edge)
}

/// The key of a task's answer.
fn key_of(op: u8, lower: Edge, upper: Edge) -> Key
    ensures { result ≡ record { op = op; f = lower; g = upper; h = lower } }
{
    Key {
        op,
        f: lower,
        g: upper,
        h: lower,
    }
}
