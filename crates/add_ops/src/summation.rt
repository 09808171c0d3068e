//! Sums of a function of numbers over a variable.

ghost use Rattle.std.specs.Prelude.{◌≡◌, IfOk, IsErrOf, true};
ghost use Rattle.node_store.specs.declared.numbers.TheConstants as numbers;
ghost use Rattle.node_store.specs.Splits.{CanJoin};
ghost use Rattle.node_store.specs.Views.{Kept, Rose};
ghost use Rattle.node_store.specs.Work.{IsWork, Moves};
ghost use Rattle.add_ops.specs.Sums.{HasSum, IsFound, SumAnswers, SumDue, SumSplits, value_of_sum};

use crate::arithmetic::Addition;
use edge_bits::{Edge, Kind};
use node_store::evaluate::evaluate;
use node_store::operator::{Frame, Halt, Next, Operator, Task, Turn, Wait};
use node_store::pointwise::place_by_place;
use node_store::scratch::Operation;
use node_store::{Grow, Key, Opened, Stack, Stop, numbers};

/// The sum of a function's cofactors by a variable, as the evaluator runs it. Above the variable a node is made of the sums of both parts; from it on down both halves are added.
#[derive(Drop)]
pub(crate) struct Summation {
    pub f: Edge,
    pub var: u32,
    /// The projection that stands for the variable in a key.
    pub projection: Edge,
}

impl<G: Grow> Operator<G> for Summation {
    ghost use Rattle.edge_bits.specs.declared.edges.Kind.TheVariants.{Add};
    ghost use Rattle.node_store.specs.BinaryLaws.{BinaryMoves, BinaryMoves-none, BinaryMoves-both};
    ghost use Rattle.node_store.specs.Work.{IsWork};
    ghost use Rattle.add_ops.specs.Conversions.{one_depth};
    ghost use Rattle.add_ops.specs.ConversionLasts.{one_depth-stays};
    ghost use Rattle.add_ops.specs.Sums.{HasSum, SumAnswers, SumDue, SumOverflows, SumWaits, value_of_sum};
    ghost use Rattle.add_ops.specs.SumLasts.{HasSum-grown, SumAnswers-stay, SumDue-stays, SumWaits-overflows, SumWaits-stay, value_of_sum-stays};

    ghost moves = { λ o. BinaryMoves (λ w. HasSum w o.f o.var) (value_of_sum o.f o.var) };

    ghost due = { λ o w. SumDue o.f o.var o.projection w.view };

    ghost answers = { λ o w. SumAnswers o.var w.view };

    ghost overflows = { λ o w. SumOverflows o.var w.view };

    ghost waits = { λ o w. SumWaits o.f o.var o.projection w.view };

    ghost refused = { λ o w. IsWork w.view (value_of_sum o.f o.var w.view) w.view.due };

    ghost depth = { λ _ w. one_depth Add w.view };

    ghost extra = { λ _ w. w.view.vars };

    fn start(&self, store: &mut G, stack: &mut Stack, task: Task) -> Result<Next, Halt> {
        match find(store, task.f, self.var) {
            Found::Halves(hi, lo) => {
                let sum = place_by_place(store, stack, Addition, hi, lo)?;
                Ok(Next::Done(sum))
            }
            Found::Parts(var, hi, lo) => {
                if let Some(edge) = store.memo_get(&key_of(task.f, self.projection)) {
                    return Ok(Next::Done(edge));
                }
                let frame = Frame {
                    task,
                    var,
                    flip: false,
                    wait: Wait::First(Task::two(lo, lo)),
                };
                Ok(Next::Call(frame, Task::two(hi, hi)))
            }
        }
    }

    fn resume(
        &self,
        store: &mut G,
        _stack: &mut Stack,
        frame: Frame,
        answer: Edge,
    ) -> Result<Turn, Halt> {
        let Frame {
            task,
            var,
            wait,
            ..
        } = frame;
        match wait {
            Wait::First(later) => Ok(Turn::Call(Wait::Second(answer), later)),
            Wait::Second(hi) => {
                let edge = self.join(store, task, var, hi, answer)?;
                Ok(Turn::Done(edge))
            }
            _ => unreachable!(),
        }
    }

    ghost moves_none = { λ o. BinaryMoves-none (λ w. HasSum w o.f o.var) (value_of_sum o.f o.var) };

    ghost moves_both = { λ o. BinaryMoves-both (λ w. HasSum w o.f o.var) (value_of_sum o.f o.var) (λ v w m d. HasSum-grown m d) (value_of_sum-stays o.f o.var) };

    ghost moves_fulls = { λ o v w m. m.moves.grown.fulls };

    ghost moves_wants = { λ o v w m. m.moves.grown.wants };

    ghost due_stays = { λ o v w t m. SumDue-stays o.f o.var o.projection v.view w.view t m.moves.grown };

    ghost answers_stay = { λ o v w t e m d. SumAnswers-stay o.var v.view w.view t e m.moves.grown d.edge };

    ghost waits_stay = { λ o v w t f u m d. SumWaits-stay o.f o.var o.projection v.view w.view t f u m.moves.grown d };

    ghost depth_stays = { λ o v w t m d. one_depth-stays Add v.view w.view t m.moves.grown d.edge };

    ghost overflow_rises = { λ o w t f u d. SumWaits-overflows o.f o.var o.projection w.view t f u };

    ghost extra_stays = { λ o v w m. m.moves.grown.vars };
}

impl Summation {
    /// The node of both answers, which is kept as the answer of the task.
    fn join<G: Grow>(
        &self,
        store: &mut G,
        task: Task,
        var: u32,
        hi: Edge,
        lo: Edge,
    ) -> Result<Edge, Stop>
        requires { CanJoin (SumDue self.now.f self.now.var self.now.projection) (SumAnswers self.now.var) (SumSplits self.now.var) (G.view store.old) task var hi lo }
        ensures moved { Moves (λ w. HasSum w self.now.f self.now.var) (value_of_sum self.now.f self.now.var) (G.view store.old) (G.view store.new) }
        ensures answer { IfOk result (SumAnswers self.now.var (G.view store.new) task) }
        ensures memory { IsErrOf result Stop.Memory → (G.view store.old).may_want_memory ≡ true }
        ensures due { IsErrOf result Stop.Full → IsWork (G.view store.new) (value_of_sum self.now.f self.now.var (G.view store.new)) (G.view store.new).due }
        ensures full { IsErrOf result Stop.Full → Rose (G.view store.old) (G.view store.new) }
    {
        let edge = store.make(var, hi, lo)?;
        store.memo_put(key_of(task.f, self.projection), edge);
        Ok(edge)
    }
}

/// What the top node of a function tells of its sum over a variable: two functions of which it is the sum, or the node's variable and children where that variable stands above the one over which is summed.
#[derive(Clone, Copy, PartialEq, Eq, Drop)]
pub(crate) enum Found {
    Halves(Edge, Edge),
    Parts(u32, Edge, Edge),
}

fn find<G: Grow>(store: &mut G, f: Edge, var: u32) -> Found
    requires { HasSum (G.view store.old) f var }
    ensures kept { Kept (G.view store.old) (G.view store.new) }
    ensures found { IsFound (G.view store.new) f var result }
{
    let Opened::Inner(top, hi, lo) = store.open(f) else {
        return Found::Halves(f, f);
    };
    if top == var {
        return Found::Halves(hi, lo);
    }
    let level = store.level(var);
    let top_level = store.level(top);
    if level < top_level {
        return Found::Halves(f, f);
    }
    Found::Parts(top, hi, lo)
}

fn key_of(f: Edge, projection: Edge) -> Key
    ensures { result ≡ record { op = numbers.SUM_OVER; f = f; g = projection; h = f } }
{
    Key {
        op: numbers::SUM_OVER,
        f,
        g: projection,
        h: f,
    }
}

/// A function and the variable over which it is summed.
#[derive(Drop)]
pub(crate) struct SumOver {
    pub f: Edge,
    pub var: u32,
}

impl<G: Grow> Operation<G> for SumOver {
    ghost use Rattle.edge_bits.specs.declared.edges.Kind.TheVariants.{Add};
    ghost use Rattle.node_store.specs.Two.{Overflows};
    ghost use Rattle.node_store.specs.Views.{Denotes};
    ghost use Rattle.add_ops.specs.Sums.{HasSum, summed_at, value_of_sum};
    ghost use Rattle.add_ops.specs.SumLasts.{HasSum-grown, sum-overflows, summed_at-lasts, value_of_sum-back};

    ghost kind = { Add };

    ghost asks = { λ o w. HasSum w o.f o.var };

    ghost answers = { λ o v w e. Denotes Add w e (summed_at v o.f o.var) };

    ghost overflows = { λ o w. Overflows Add (summed_at w o.f o.var) };

    ghost work = { λ o. value_of_sum o.f o.var };

    fn answer_kind(&self) -> Kind {
        Kind::Add
    }

    fn run(self, store: &mut G, stack: &mut Stack) -> Result<Edge, Halt> {
        let projection = store.projection(self.var);
        let op = Summation {
            f: self.f,
            var: self.var,
            projection,
        };
        evaluate(store, stack, &op, Task::two(self.f, self.f))
    }

    ghost asks_stay = { λ o v w m. HasSum-grown m };

    ghost answers_last = { λ o. summed_at-lasts o.f o.var };

    ghost overflows_back = { λ o v w m d. sum-overflows o.f o.var m d };

    ghost work_back = { λ o. value_of_sum-back o.f o.var };
}
