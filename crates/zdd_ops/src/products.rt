//! Products of families, as the evaluator runs them.

ghost use Rattle.std.specs.Prelude.{◌≡◌, ◌≤◌, IfOk, IsErrOf, false, true};
ghost use Rattle.edge_bits.specs.declared.edges.Edge.{Edge as EdgeOf};
ghost use Rattle.edge_bits.specs.declared.edges.Kind.TheVariants.{Zdd};
ghost use Rattle.node_store.specs.Views.{View, AreTwo, Denotes, IsTop, Kept, Permanent, Rose, family_at};
ghost use Rattle.node_store.specs.Work.{IsWork, Moves};
ghost use Rattle.zdd_ops.specs.Products.{AreQuarters, IsProductTerminal, IsQuarter, ProductAnswers, ProductDue, product_at, product_key, product_work, with_element};

use crate::nested::{product, union};
use edge_bits::{BASE_SLOT, EMPTY_SLOT, Edge, Kind};
use node_store::operator::{Frame, Halt, Next, Operator, Task, Turn, Wait};
use node_store::parts::{Halves, Split, parts, split_two};
use node_store::scratch::Operation;
use node_store::{Grow, Key, Stack, numbers};

/// A product of two families. A task splits at the first element of both in four: a part of the first family times a part of the second, each with the element or without it.
#[derive(Drop)]
pub(crate) struct Multiplication {
    pub p: Edge,
    pub q: Edge,
}

/// The answers of a task's four parts: of the members with the element or of those without it, in the first family and in the second.
#[derive(Clone, Copy, PartialEq, Eq, Drop)]
struct Quarters {
    then_then: Edge,
    then_else: Edge,
    else_then: Edge,
    else_else: Edge,
}

impl<G: Grow> Operator<G> for Multiplication {
    ghost use Rattle.std.specs.Prelude.{refl};
    ghost use Rattle.edge_bits.specs.declared.edges.Kind.TheVariants.{Zdd};
    ghost use Rattle.node_store.specs.BinaryLaws.{BinaryMoves, BinaryMoves-none, BinaryMoves-both};
    ghost use Rattle.node_store.specs.Two.{two_depth};
    ghost use Rattle.node_store.specs.TwoLaws.{AreTwo-grown, two_depth-stays};
    ghost use Rattle.node_store.specs.Views.{AreTwo};
    ghost use Rattle.node_store.specs.Work.{IsWork};
    ghost use Rattle.zdd_ops.specs.Products.{ProductAnswers, ProductDue, ProductWaits, product_work};
    ghost use Rattle.zdd_ops.specs.ProductLasts.{ProductAnswers-stay, ProductDue-stays, ProductWaits-stay, product_work-stays};

    ghost moves = { λ o. BinaryMoves (λ w. AreTwo Zdd w o.p o.q) (product_work o.p o.q) };

    ghost due = { λ o w. ProductDue o.p o.q w.view };

    ghost answers = { λ _ w. ProductAnswers w.view };

    ghost overflows = { λ _ _ _. ⊥ };

    ghost waits = { λ o w. ProductWaits o.p o.q w.view };

    ghost refused = { λ o w. IsWork w.view (product_work o.p o.q w.view) w.view.due };

    ghost depth = { λ _ w. two_depth Zdd w.view };

    ghost extra = { λ _ w. w.view.elements };

    fn start(&self, store: &mut G, _stack: &mut Stack, task: Task) -> Result<Next, Halt> {
        let Task { f, g, h } = task;
        if let Some(edge) = terminal(f, g) {
            return Ok(Next::Done(edge));
        }
        if let Some(edge) = store.memo_get(&key_of(f, g)) {
            return Ok(Next::Done(edge));
        }
        match split_two(store, f, g) {
            Split::Leaves(_, _) => unreachable!(),
            Split::At(halves) => {
                let Halves { top, hi, lo } = halves;
                let frame = Frame {
                    task: Task { f, g, h },
                    var: top.var,
                    flip: false,
                    wait: Wait::First(Task::two(hi.f, lo.g)),
                };
                Ok(Next::Call(frame, hi))
            }
        }
    }

    fn resume(
        &self,
        store: &mut G,
        stack: &mut Stack,
        frame: Frame,
        answer: Edge,
    ) -> Result<Turn, Halt> {
        let Frame {
            task,
            var,
            wait,
            ..
        } = frame;
        match wait {
            Wait::First(later) => Ok(Turn::Call(Wait::Second(answer), later)),
            Wait::Second(then_then) => {
                let child = without_first(store, task, var, true);
                Ok(Turn::Call(Wait::Third(then_then, answer), child))
            }
            Wait::Third(then_then, then_else) => {
                let child = without_first(store, task, var, false);
                let wait = Wait::Fourth(then_then, then_else, answer);
                Ok(Turn::Call(wait, child))
            }
            Wait::Fourth(then_then, then_else, else_then) => {
                let quarters = Quarters {
                    then_then,
                    then_else,
                    else_then,
                    else_else: answer,
                };
                let edge = self.join(store, stack, task, var, quarters)?;
                Ok(Turn::Done(edge))
            }
            Wait::Only => unreachable!(),
        }
    }

    ghost moves_none = { λ o. BinaryMoves-none (λ w. AreTwo Zdd w o.p o.q) (product_work o.p o.q) };

    ghost moves_both = { λ o. BinaryMoves-both (λ w. AreTwo Zdd w o.p o.q) (product_work o.p o.q) (λ v w m d. AreTwo-grown Zdd m d) (product_work-stays o.p o.q) };

    ghost moves_fulls = { λ o v w m. m.moves.grown.fulls };

    ghost moves_wants = { λ o v w m. m.moves.grown.wants };

    ghost due_stays = { λ o v w t m. ProductDue-stays o.p o.q v.view w.view t m.moves.grown };

    ghost answers_stay = { λ o v w t e m d. ProductAnswers-stay v.view w.view t e m.moves.grown d.two };

    ghost waits_stay = { λ o v w t f u m d. ProductWaits-stay o.p o.q v.view w.view t f u m.moves.grown d };

    ghost depth_stays = { λ o v w t m d. two_depth-stays Zdd v.view w.view t m.moves.grown d.two };

    ghost overflow_rises = { λ o w t f u d waits bad. bad };

    ghost extra_stays = { λ o v w m. m.moves.grown.elements };
}

impl Multiplication {
    /// The answer of a task from those of its parts, which is kept.
    fn join<G: Grow>(
        &self,
        store: &mut G,
        stack: &mut Stack,
        task: Task,
        var: u32,
        quarters: Quarters,
    ) -> Result<Edge, Halt>
        requires parts { AreQuarters self.now.p self.now.q (G.view store.old) task var quarters }
        requires room { (G.view store.old).elements ≤ stack.old.free }
        ensures moved { Moves (λ w. AreTwo Zdd w self.now.p self.now.q) (product_work self.now.p self.now.q) (G.view store.old) (G.view store.new) }
        ensures answer { IfOk result (ProductAnswers (G.view store.new) task) }
        ensures memory { IsErrOf result Halt.Memory → (G.view store.old).may_want_memory ≡ true }
        ensures due { IsErrOf result Halt.Full → IsWork (G.view store.new) (product_work self.now.p self.now.q (G.view store.new)) (G.view store.new).due }
        ensures full { IsErrOf result Halt.Full → Rose (G.view store.old) (G.view store.new) }
        ensures overflow { IsErrOf result Halt.Overflow → ⊥ }
        ensures stack { stack.new ≡ stack.old }
    {
        let key = key_of(task.f, task.g);
        let else_else = quarters.else_else;
        let with = self.unite(store, stack, task, var, quarters)?;
        let edge = store.make(var, with, else_else)?;
        store.memo_put(key, edge);
        Ok(edge)
    }

    /// The members of a task's product with the element, without it: they come from three of its parts.
    fn unite<G: Grow>(
        &self,
        store: &mut G,
        stack: &mut Stack,
        task: Task,
        var: u32,
        quarters: Quarters,
    ) -> Result<Edge, Halt>
        requires parts { AreQuarters self.now.p self.now.q (G.view store.old) task var quarters }
        requires room { (G.view store.old).elements ≤ stack.old.free }
        ensures moved { Moves (λ w. AreTwo Zdd w self.now.p self.now.q) (product_work self.now.p self.now.q) (G.view store.old) (G.view store.new) }
        ensures answer { IfOk result (λ e. Denotes Zdd (G.view store.new) e (with_element (G.view store.old) task var)) }
        ensures memory { IsErrOf result Halt.Memory → (G.view store.old).may_want_memory ≡ true }
        ensures due { IsErrOf result Halt.Full → IsWork (G.view store.new) (product_work self.now.p self.now.q (G.view store.new)) (G.view store.new).due }
        ensures full { IsErrOf result Halt.Full → Rose (G.view store.old) (G.view store.new) }
        ensures overflow { IsErrOf result Halt.Overflow → ⊥ }
        ensures stack { stack.new ≡ stack.old }
    {
        let first = union(store, stack, quarters.then_then, quarters.then_else)?;
        Ok(union(store, stack, first, quarters.else_then)?)
    }
}

impl<G: Grow> Operation<G> for Multiplication {
    ghost use Rattle.edge_bits.specs.declared.edges.Kind.TheVariants.{Zdd};
    ghost use Rattle.node_store.specs.TwoLaws.{AreTwo-grown};
    ghost use Rattle.node_store.specs.Views.{AreTwo, Denotes, family_at};
    ghost use Rattle.zdd_ops.specs.Products.{product_at, product_work};
    ghost use Rattle.zdd_ops.specs.ProductLasts.{product-lasts, product_work-back};

    ghost kind = { Zdd };

    ghost asks = { λ o w. AreTwo Zdd w o.p o.q };

    ghost answers = { λ o v w e. Denotes Zdd w e (product_at v (family_at v o.p) (family_at v o.q)) };

    ghost overflows = { λ _ _. ⊥ };

    ghost work = { λ o. product_work o.p o.q };

    fn answer_kind(&self) -> Kind {
        Kind::Zdd
    }

    fn run(self, store: &mut G, stack: &mut Stack) -> Result<Edge, Halt> {
        Ok(product(store, stack, self.p, self.q)?)
    }

    ghost asks_stay = { λ o v w m. AreTwo-grown Zdd m };

    ghost answers_last = { λ o. product-lasts o.p o.q };

    ghost overflows_back = { λ o v w m d over. over };

    ghost work_back = { λ o. product_work-back o.p o.q };
}

/// The product with Empty, or with Base.
fn terminal(f: Edge, g: Edge) -> Option<Edge>
    ensures { (w : View) → Permanent w → AreTwo Zdd w f g → IsProductTerminal w f g result }
{
    if f.index() == EMPTY_SLOT {
        return Some(f);
    }
    if g.index() == EMPTY_SLOT {
        return Some(g);
    }
    if f.index() == BASE_SLOT {
        return Some(g);
    }
    if g.index() == BASE_SLOT {
        return Some(f);
    }
    None
}

/// Both orders of two families have one product.
fn key_of(f: Edge, g: Edge) -> Key
    ensures { result ≡ product_key f g }
{
    let (f, g) = if f.index() < g.index() {
        (f, g)
    } else {
        (g, f)
    };
    Key {
        op: numbers::PRODUCT,
        f,
        g,
        h: f,
    }
}

/// The task of the members of the first family without an element, and of the second family's members with it or without it.
fn without_first<G: Grow>(store: &mut G, task: Task, var: u32, with_second: bool) -> Task
    requires two { AreTwo Zdd (G.view store.old) task.f task.g }
    requires top { IsTop Zdd (G.view store.old) task.f task.g var }
    ensures kept { Kept (G.view store.old) (G.view store.new) }
    ensures part { (p q : EdgeOf) → ProductDue p q (G.view store.old) task → IsQuarter p q (G.view store.new) task var false with_second result }
{
    let (_, f0) = parts(store, task.f, var);
    let (g1, g0) = parts(store, task.g, var);
    if with_second {
        Task::two(f0, g1)
    } else {
        Task::two(f0, g0)
    }
}
