//! The conjunction of two functions, quantified over the variables of a product: the relational product (Burch, Clarke, McMillan, Dill and Hwang 1990).

ghost use Rattle.std.specs.Prelude.{◌≡◌, ◌≤◌, ◌*◌, IfOk, IsErrOf, List, ℕ, true};
ghost use Rattle.edge_bits.specs.declared.edges.Kind.TheVariants.{Bdd};
ghost use Rattle.function_laws.specs.Values.{exists_all};
ghost use Rattle.node_store.specs.declared.numbers.TheConstants as numbers;
ghost use Rattle.node_store.specs.Operations.{Runs};
ghost use Rattle.node_store.specs.Operands.{HalvesOfTwo};
ghost use Rattle.node_store.specs.Views.{View, AreTwo, Kept, NotBothLeaves, Permanent, Rose};
ghost use Rattle.node_store.specs.Splits.{CanJoin};
ghost use Rattle.node_store.specs.Work.{IsWork, Moves};
ghost use Rattle.quantify_ops.specs.Products.{IsCubeOf};
ghost use Rattle.quantify_ops.specs.Works.{value_of_and_exists};
ghost use Rattle.quantify_ops.specs.Quantified.{both_at, AreQuantified, IsKeyOf, IsKnown, IsQuantifiedValue, IsStep, QuantifiedAnswers, QuantifiedDue, QuantifiedFirst, QuantifiedSplits};

use crate::products::{Left, left_of, rest_of};
use edge_bits::{Edge, TRUE_SLOT};
use ite_core::nested::{and, or};
use node_store::binary::Branch;
use node_store::evaluate::evaluate;
use node_store::operator::{Frame, Halt, Next, Operator, Task, Turn, Wait};
use node_store::parts::{Halves, Split, split_two};
use node_store::{Grow, Key, Stack, numbers};

/// A quantified conjunction, as the evaluator runs it: each task is two functions and what is left of the product.
#[derive(Drop)]
pub(crate) struct Quantification {
    pub f: Edge,
    pub g: Edge,
    pub cube: Edge,
}

/// The next step of a task: another one with the same answers, or its parts.
#[derive(Drop)]
pub(crate) enum Step {
    Skip(Task),
    Split(Branch),
}

impl<G: Grow> Operator<G> for Quantification {
    ghost use Rattle.std.specs.Prelude.{refl};
    ghost use Rattle.edge_bits.specs.declared.edges.Kind.TheVariants.{Bdd};
    ghost use Rattle.node_store.specs.BinaryLaws.{BinaryMoves, BinaryMoves-none, BinaryMoves-both};
    ghost use Rattle.node_store.specs.Three.{three_depth};
    ghost use Rattle.node_store.specs.ThreeLaws.{three_depth-stays};
    ghost use Rattle.node_store.specs.Work.{IsWork};
    ghost use Rattle.quantify_ops.specs.Products.{IsCubeOf};
    ghost use Rattle.quantify_ops.specs.Works.{value_of_and_exists};
    ghost use Rattle.quantify_ops.specs.Quantified.{both_at, AreQuantified, IsQuantifiedValue, QuantifiedDue, QuantifiedAnswers, QuantifiedWaits};
    ghost use Rattle.quantify_ops.specs.QuantifiedLasts.{AreQuantified-grown, IsQuantifiedValue-stays, QuantifiedDue-stays, QuantifiedAnswers-stay, QuantifiedWaits-stay, three_operands};

    ghost moves = { λ o. BinaryMoves (λ w. AreQuantified w o.f o.g o.cube) (IsQuantifiedValue o.f o.g o.cube) };

    ghost due = { λ o w. QuantifiedDue o.f o.g o.cube w.view };

    ghost answers = { λ _ w. QuantifiedAnswers w.view };

    ghost overflows = { λ _ _ _. ⊥ };

    ghost waits = { λ o w. QuantifiedWaits o.f o.g o.cube w.view };

    ghost refused = { λ o w. IsWork w.view (IsQuantifiedValue o.f o.g o.cube w.view) w.view.due };

    ghost depth = { λ _ w. three_depth Bdd w.view };

    ghost extra = { λ _ w. w.view.vars };

    fn start(&self, store: &mut G, stack: &mut Stack, task: Task) -> Result<Next, Halt> {
        let Task { f, g, h } = task;
        if let Some(value) = known(f, g) {
            return Ok(Next::Done(Edge::truth(value)));
        }
        if let Some(edge) = store.memo_get(&key_of(Task { f, g, h })) {
            return Ok(Next::Done(edge));
        }
        if h.index() == TRUE_SLOT {
            // Nothing is left to quantify.
            return Ok(Next::Done(and(store, stack, f, g)?));
        }
        match self.narrow(store, Task { f, g, h }) {
            Step::Skip(child) => {
                let frame = Frame {
                    task: Task { f, g, h },
                    var: 0,
                    flip: false,
                    wait: Wait::Only,
                };
                Ok(Next::Call(frame, child))
            }
            Step::Split(branch) => {
                let frame = Frame {
                    task: branch.task,
                    var: branch.var,
                    flip: false,
                    wait: Wait::First(branch.lo),
                };
                Ok(Next::Call(frame, branch.hi))
            }
        }
    }

    fn resume(
        &self,
        store: &mut G,
        stack: &mut Stack,
        frame: Frame,
        answer: Edge,
    ) -> Result<Turn, Halt> {
        let Frame {
            task: Task { f, g, h },
            var,
            wait,
            ..
        } = frame;
        match wait {
            Wait::Only => {
                self.keep(store, Task { f, g, h }, answer);
                Ok(Turn::Done(answer))
            }
            Wait::First(later) => {
                if self.settles(store, Task { f, g, h }, var, answer) {
                    self.keep(store, Task { f, g, h }, answer);
                    return Ok(Turn::Done(answer));
                }
                Ok(Turn::Call(Wait::Second(answer), later))
            }
            Wait::Second(hi) => {
                let edge = self.join(store, stack, Task { f, g, h }, var, hi, answer)?;
                self.keep(store, Task { f, g, h }, edge);
                Ok(Turn::Done(edge))
            }
            _ => unreachable!(),
        }
    }

    ghost moves_none = { λ o. BinaryMoves-none (λ w. AreQuantified w o.f o.g o.cube) (IsQuantifiedValue o.f o.g o.cube) };

    ghost moves_both = { λ o. BinaryMoves-both (λ w. AreQuantified w o.f o.g o.cube) (IsQuantifiedValue o.f o.g o.cube) (λ v w m d. AreQuantified-grown m d) (IsQuantifiedValue-stays o.f o.g o.cube) };

    ghost moves_fulls = { λ o v w m. m.moves.grown.fulls };

    ghost moves_wants = { λ o v w m. m.moves.grown.wants };

    ghost due_stays = { λ o v w t m. QuantifiedDue-stays o.f o.g o.cube v.view w.view t m.moves.grown };

    ghost answers_stay = { λ o v w t e m d. QuantifiedAnswers-stay v.view w.view t e m.moves.grown d.operands };

    ghost waits_stay = { λ o v w t f u m d. QuantifiedWaits-stay o.f o.g o.cube v.view w.view t f u m.moves.grown d };

    ghost depth_stays = { λ o v w t m d. three_depth-stays Bdd v.view w.view t m.moves.grown (three_operands v.view t d.operands) };

    ghost overflow_rises = { λ o w t f u d waits bad. bad };

    ghost extra_stays = { λ o v w m. m.moves.grown.vars };
}

impl Quantification {
    /// The parts of a task, or the same task without the product's top variable, where that stands above both functions.
    fn narrow<G: Grow>(&self, store: &mut G, task: Task) -> Step
        requires due { QuantifiedDue self.now.f self.now.g self.now.cube (G.view store.old) task }
        requires inner { NotBothLeaves Bdd (G.view store.old) task.f task.g }
        ensures kept { Kept (G.view store.old) (G.view store.new) }
        ensures step { IsStep self.now.f self.now.g self.now.cube (G.view store.new) task result }
    {
        let Task { f, g, h } = task;
        let Halves { top, hi, lo } = self.split(store, Task { f, g, h });
        match left_of(store, h, top) {
            Left::Above(rest) => Step::Skip(Task { f, g, h: rest }),
            Left::Below(rest) => Step::Split(Branch {
                task: Task { f, g, h },
                flip: false,
                var: top.var,
                hi: Task { h: rest, ..hi },
                lo: Task { h: rest, ..lo },
            }),
        }
    }

    /// The parts of a task's functions at the upper one of their top variables.
    fn split<G: Grow>(&self, store: &mut G, task: Task) -> Halves
        requires two { AreTwo Bdd (G.view store.old) task.f task.g }
        requires inner { NotBothLeaves Bdd (G.view store.old) task.f task.g }
        ensures kept { Kept (G.view store.old) (G.view store.new) }
        ensures halves { HalvesOfTwo Bdd (G.view store.new) task.f task.g result }
    {
        match split_two(store, task.f, task.g) {
            Split::Leaves(_, _) => unreachable!(),
            Split::At(halves) => halves,
        }
    }

    /// Whether the answer of the first part is that of the task: it is true, and the variable is quantified.
    fn settles<G: Grow>(&self, store: &mut G, task: Task, var: u32, first: Edge) -> bool
        requires { QuantifiedFirst self.now.f self.now.g self.now.cube (G.view store.old) task var first }
        ensures kept { Kept (G.view store.old) (G.view store.new) }
        ensures answer { result ≡ true → QuantifiedAnswers (G.view store.new) task first }
    {
        if first.index() != TRUE_SLOT {
            return false;
        }
        if first.complement() {
            return false;
        }
        match rest_of(store, task.h, var) {
            Some(_) => true,
            None => false,
        }
    }

    /// The answer of a task from those of its parts: their disjunction where the variable is quantified, else a node.
    fn join<G: Grow>(
        &self,
        store: &mut G,
        stack: &mut Stack,
        task: Task,
        var: u32,
        hi: Edge,
        lo: Edge,
    ) -> Result<Edge, Halt>
        requires parts { CanJoin (QuantifiedDue self.now.f self.now.g self.now.cube) QuantifiedAnswers QuantifiedSplits (G.view store.old) task var hi lo }
        requires room { (G.view store.old).vars ≤ stack.old.free }
        ensures moved { Moves (λ w. AreQuantified w self.now.f self.now.g self.now.cube) (IsQuantifiedValue self.now.f self.now.g self.now.cube) (G.view store.old) (G.view store.new) }
        ensures answer { IfOk result (QuantifiedAnswers (G.view store.new) task) }
        ensures memory { IsErrOf result Halt.Memory → (G.view store.old).may_want_memory ≡ true }
        ensures due { IsErrOf result Halt.Full → IsWork (G.view store.new) (IsQuantifiedValue self.now.f self.now.g self.now.cube (G.view store.new)) (G.view store.new).due }
        ensures full { IsErrOf result Halt.Full → Rose (G.view store.old) (G.view store.new) }
        ensures overflow { IsErrOf result Halt.Overflow → ⊥ }
        ensures stack { stack.new ≡ stack.old }
    {
        match rest_of(store, task.h, var) {
            Some(_) => Ok(or(store, stack, hi, lo)?),
            None => Ok(store.make(var, hi, lo)?),
        }
    }

    /// Keeps the answer of a task.
    fn keep<G: Grow>(&self, store: &mut G, task: Task, answer: Edge)
        requires due { QuantifiedDue self.now.f self.now.g self.now.cube (G.view store.old) task }
        requires answer { QuantifiedAnswers (G.view store.old) task answer }
        ensures { Kept (G.view store.old) (G.view store.new) }
    {
        store.memo_put(key_of(task), answer);
    }
}

/// The conjunction of two functions, quantified over the variables of a product, on this stack.
pub(crate) fn quantify<G: Grow>(
    store: &mut G,
    stack: &mut Stack,
    f: Edge,
    g: Edge,
    cube: Edge,
) -> Result<Edge, Halt>
    requires operands { AreTwo Bdd (G.view store.old) f g }
    requires cube { (vars : List ℕ) × IsCubeOf (G.view store.old) cube vars }
    requires permanent { Permanent (G.view store.old) }
    requires room { 2 * (G.view store.old).vars ≤ stack.old.free }
    ensures runs { (vars : List ℕ) → IsCubeOf (G.view store.old) cube vars → Runs Bdd (exists_all (both_at (G.view store.old) f g) vars) (value_of_and_exists f g vars (G.view store.old)) (G.view store.old) (G.view store.new) result }
    ensures stack { stack.new ≡ stack.old }
{
    let op = Quantification { f, g, cube };
    let task = Task { f, g, h: cube };
    evaluate(store, stack, &op, task)
}

/// The constant that the conjunction of two functions is known to be.
fn known(f: Edge, g: Edge) -> Option<bool>
    ensures { (w : View) → Permanent w → AreTwo Bdd w f g → IsKnown w f g result }
{
    if f.index() == g.index() {
        if f.complement() != g.complement() {
            return Some(false);
        }
        return if f.index() == TRUE_SLOT {
            Some(!f.complement())
        } else {
            None
        };
    }
    if f.index() == TRUE_SLOT {
        return if f.complement() { Some(false) } else { None };
    }
    if g.index() == TRUE_SLOT {
        return if g.complement() { Some(false) } else { None };
    }
    None
}

/// A conjunction of a function with true, or with itself, stands under the key of that function.
fn key_of(task: Task) -> Key
    ensures { (w : View) → Permanent w → AreQuantified w task.f task.g task.h → IsKeyOf w task result }
{
    let one = Edge::truth(true);
    if task.f == task.g {
        return exists_key(task.f, task.h);
    }
    if task.f == one {
        return exists_key(task.g, task.h);
    }
    if task.g == one {
        return exists_key(task.f, task.h);
    }
    let ordered = Task::ordered(task.f, task.g);
    Key {
        op: numbers::AND_EXISTS,
        f: ordered.f,
        g: ordered.g,
        h: task.h,
    }
}

/// The key of a quantified function.
fn exists_key(f: Edge, cube: Edge) -> Key
    ensures { result ≡ record { op = numbers.EXISTS; f = f; g = cube; h = f } }
{
    Key {
        op: numbers::EXISTS,
        f,
        g: cube,
        h: f,
    }
}
