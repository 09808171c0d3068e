//! Operators of two parts whose answers are kept in the table of their own call.

use crate::binary::{Apply, Expansion, flip_if};
use crate::grow::{Edge, Grow};
use crate::operator::{Frame, Halt, Next, Operator, Task, Turn, Wait};
use crate::stack::Stack;

/// Such an operator, as the evaluator runs it.
#[derive(Drop)]
pub struct Remembering<O>(pub O);

impl<G: Grow, O: Apply<G>> Operator<G> for Remembering<O> {
    ghost use Rattle.std.specs.Prelude.{◌≡◌};
    ghost use Rattle.node_store.specs.Splits.{Waiting};
    ghost use Rattle.node_store.specs.Waiting.{Waiting-stays, Waiting-overflows};
    ghost use Rattle.node_store.specs.Remembering.{Knows, RememberingMoves};
    ghost use Rattle.node_store.specs.RememberingLaws.{RememberingMoves-none, RememberingMoves-both};
    ghost use Rattle.node_store.specs.Work.{IsWork};

    ghost moves = { λ s. RememberingMoves (O.roots s.0) (O.work s.0) (O.due s.0) (O.answers s.0) };

    ghost due = { λ s w t. O.due s.0 w.view t × Knows (O.due s.0) (O.answers s.0) w.view w.answers };

    ghost answers = { λ s w. O.answers s.0 w.view };

    ghost overflows = { λ s w. O.overflows s.0 w.view };

    ghost waits = { λ s w. Waiting (O.due s.0) (O.answers s.0) (O.overflows s.0) (O.splits s.0) (O.depth s.0) w.view };

    ghost refused = { λ s w. IsWork w.view (O.work s.0 w.view) w.view.due };

    ghost depth = { λ s w. O.depth s.0 w.view };

    ghost extra = { λ s w. O.extra s.0 w.view };

    fn start(&self, store: &mut G, stack: &mut Stack, task: Task) -> Result<Next, Halt> {
        let Task { f, g, h } = task;
        if let Some(edge) = stack.recall(Task { f, g, h }) {
            return Ok(Next::Done(edge));
        }
        match self.0.expand(store, Task { f, g, h })? {
            Expansion::Done(edge) => Ok(Next::Done(edge)),
            Expansion::Split(branch) => {
                let frame = Frame {
                    task: branch.task,
                    var: branch.var,
                    flip: branch.flip,
                    wait: Wait::First(branch.lo),
                };
                Ok(Next::Call(frame, branch.hi))
            }
        }
    }

    fn resume(
        &self,
        store: &mut G,
        stack: &mut Stack,
        frame: Frame,
        answer: Edge,
    ) -> Result<Turn, Halt> {
        let Frame {
            task: Task { f, g, h },
            var,
            flip,
            wait,
        } = frame;
        match wait {
            Wait::First(later) => {
                if let Some(edge) = self.0.settled(Task { f, g, h }, var, answer) {
                    stack.remember(Task { f, g, h }, edge);
                    return Ok(Turn::Done(flip_if(edge, flip)));
                }
                Ok(Turn::Call(Wait::Second(answer), later))
            }
            Wait::Second(hi) => {
                let edge = self
                    .0
                    .join(store, stack, Task { f, g, h }, var, hi, answer)?;
                stack.remember(Task { f, g, h }, edge);
                Ok(Turn::Done(flip_if(edge, flip)))
            }
            _ => unreachable!(),
        }
    }

    ghost moves_none = { λ o. RememberingMoves-none (O.roots o.0) (O.work o.0) (O.due o.0) (O.answers o.0) };

    ghost moves_both = { λ o. RememberingMoves-both (O.roots o.0) (O.work o.0) (O.due o.0) (O.answers o.0) (O.roots_stay o.0) (O.work_stays o.0) };

    ghost moves_fulls = { λ o v w m. m.moves.grown.fulls };

    ghost moves_wants = { λ o v w m. m.moves.grown.wants };

    ghost due_stays = { λ o v w t m d. (O.due_stays o.0 v.view w.view t m.moves.grown d.0, m.known d.1) };

    ghost answers_stay = { λ o v w t e m d. O.answers_stay o.0 v.view w.view t e m.moves.grown d.0 };

    ghost waits_stay = { λ o v w t f u m d. Waiting-stays (O.due o.0) (O.answers o.0) (O.overflows o.0) (O.splits o.0) (O.depth o.0) (O.due_stays o.0) (O.answers_stay o.0) (O.splits_stay o.0) (O.depth_stays o.0) v.view w.view t f u m.moves.grown d.0 };

    ghost depth_stays = { λ o v w t m d. O.depth_stays o.0 v.view w.view t m.moves.grown d.0 };

    ghost overflow_rises = { λ o w t f u d. Waiting-overflows (O.due o.0) (O.answers o.0) (O.overflows o.0) (O.splits o.0) (O.depth o.0) (O.overflow_hi o.0) (O.overflow_lo o.0) w.view t f u };

    ghost extra_stays = { λ o v w m. O.extra_stays o.0 v.view w.view m.moves.grown };
}
