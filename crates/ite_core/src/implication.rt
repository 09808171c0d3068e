//! Whether one function is true wherever another is.

ghost use Rattle.std.specs.Prelude.{◌≡◌, cond};
ghost use Rattle.node_store.specs.declared.numbers.TheConstants as numbers;
ghost use Rattle.node_store.specs.Views.{View, Kept, Permanent};
ghost use Rattle.ite_core.specs.Implications.{ImplicationAnswers, ImplicationDue, ImplicationTerminal};

use edge_bits::{Edge, TRUE_SLOT};
use node_store::operator::{Frame, Halt, Next, Operator, Task, Turn, Wait};
use node_store::parts::{Split, split_two};
use node_store::{Grow, Key, Stack, numbers};

/// An implication, as the evaluator runs it: its answers are constants. It makes no node.
#[derive(Drop)]
pub(crate) struct Implication;

impl<G: Grow> Operator<G> for Implication {
    ghost use Rattle.std.specs.Prelude.{refl};
    ghost use Rattle.edge_bits.specs.declared.edges.Kind.TheVariants.{Bdd};
    ghost use Rattle.node_store.specs.Two.{two_depth};
    ghost use Rattle.node_store.specs.TwoLaws.{two_depth-stays};
    ghost use Rattle.ite_core.specs.Implications.{Untouched, ImplicationDue, ImplicationAnswers, ImplicationWaits};
    ghost use Rattle.ite_core.specs.ImplicationLasts.{Untouched-none, Untouched-both, ImplicationDue-stays, ImplicationAnswers-stay, ImplicationWaits-stay};

    ghost moves = { λ _. Untouched };

    ghost due = { λ _ w. ImplicationDue w.view };

    ghost answers = { λ _ w. ImplicationAnswers w.view };

    ghost overflows = { λ _ _ _. ⊥ };

    ghost waits = { λ _ w. ImplicationWaits w.view };

    ghost refused = { λ _ _. ⊥ };

    ghost depth = { λ _ w. two_depth Bdd w.view };

    ghost extra = { λ _ _. 0 };

    fn start(&self, store: &mut G, _stack: &mut Stack, task: Task) -> Result<Next, Halt> {
        let Task { f, g, h } = task;
        if let Some(yes) = terminal(f, g) {
            return Ok(Next::Done(Edge::truth(yes)));
        }
        if let Some(edge) = store.memo_get(&key_of(Task { f, g, h })) {
            return Ok(Next::Done(edge));
        }
        match split_two(store, f, g) {
            Split::Leaves(_, _) => unreachable!(),
            Split::At(halves) => {
                let frame = Frame {
                    task: Task { f, g, h },
                    var: halves.top.var,
                    flip: false,
                    wait: Wait::First(halves.lo),
                };
                Ok(Next::Call(frame, halves.hi))
            }
        }
    }

    fn resume(
        &self,
        store: &mut G,
        _stack: &mut Stack,
        frame: Frame,
        answer: Edge,
    ) -> Result<Turn, Halt> {
        let Frame { task, wait, .. } = frame;
        match wait {
            Wait::First(later) => {
                // One part that does not hold settles the answer.
                if answer.complement() {
                    keep(store, task, answer);
                    return Ok(Turn::Done(answer));
                }
                Ok(Turn::Call(Wait::Second(answer), later))
            }
            Wait::Second(first) => {
                let edge = both(first, answer);
                keep(store, task, edge);
                Ok(Turn::Done(edge))
            }
            _ => unreachable!(),
        }
    }

    ghost moves_none = { λ _. Untouched-none };

    ghost moves_both = { λ _. Untouched-both };

    ghost moves_fulls = { λ o v w m. m.kept.grown.fulls };

    ghost moves_wants = { λ o v w m. m.kept.grown.wants };

    ghost due_stays = { λ o v w t m. ImplicationDue-stays v.view w.view t m.kept.grown };

    ghost answers_stay = { λ o v w t e m. ImplicationAnswers-stay v.view w.view t e m.kept.grown };

    ghost waits_stay = { λ o v w t f u m. ImplicationWaits-stay v.view w.view t f u m.kept.grown };

    ghost depth_stays = { λ o v w t m d. two_depth-stays Bdd v.view w.view t m.kept.grown d.two };

    ghost overflow_rises = { λ o w t f u d waits bad. bad };

    ghost extra_stays = { λ _ _ _ _. refl };
}

/// The answer for equal operands, and for constants that tell it.
fn terminal(f: Edge, g: Edge) -> Option<bool>
    ensures { (w : View) → Permanent w → ImplicationTerminal w f g result }
{
    if f == g {
        return Some(true);
    }
    if f.index() == TRUE_SLOT {
        if f.complement() {
            return Some(true);
        }
        if g.index() == TRUE_SLOT {
            return Some(!g.complement());
        }
        return None;
    }
    if g.index() == TRUE_SLOT && !g.complement() {
        return Some(true);
    }
    None
}

/// The constant that is true where both are.
fn both(first: Edge, second: Edge) -> Edge
    ensures { result ≡ cond first.complement first second }
{
    if first.complement() { first } else { second }
}

/// The key of an implication.
fn key_of(task: Task) -> Key
    ensures { result ≡ record { op = numbers.LEQ; f = task.f; g = task.g; h = task.f } }
{
    Key {
        op: numbers::LEQ,
        f: task.f,
        g: task.g,
        h: task.f,
    }
}

/// Keeps the answer of a task.
fn keep<G: Grow>(store: &mut G, task: Task, answer: Edge)
    requires due { ImplicationDue (G.view store.old) task }
    requires answer { ImplicationAnswers (G.view store.old) task answer }
    ensures { Kept (G.view store.old) (G.view store.new) }
{
    store.memo_put(key_of(task), answer);
}
