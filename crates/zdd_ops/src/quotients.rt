//! Quotients of families, as the evaluator runs them.

ghost use Rattle.std.specs.Prelude.{◌≡◌, true, false};
ghost use Rattle.edge_bits.specs.declared.edges.Kind.TheVariants.{Zdd};
ghost use Rattle.function_laws.specs.Families.{empty};
ghost use Rattle.node_store.specs.Views.{View, AreTwo, CanPart, Is, Kept, Permanent, family_at};
ghost use Rattle.zdd_ops.specs.Products.{CanPartBoth};
ghost use Rattle.zdd_ops.specs.Quotients.{HasMember, IsDivided, IsQuotientTerminal, IsSplitTask, quotient_key};

use crate::nested::{meet, quotient};
use edge_bits::{BASE_SLOT, EMPTY_SLOT, Edge, Kind};
use node_store::binary::{Apply, Branch, Expansion};
use node_store::operator::{Halt, Task};
use node_store::parts::{Split, parts, split_two};
use node_store::scratch::Operation;
use node_store::{Grow, Key, Opened, Stack, numbers};

/// A quotient of two families.
#[derive(Drop)]
pub(crate) struct Division {
    pub p: Edge,
    pub q: Edge,
}

impl<G: Grow> Apply<G> for Division {
    ghost use Rattle.std.specs.Prelude.{refl};
    ghost use Rattle.edge_bits.specs.declared.edges.Kind.TheVariants.{Zdd};
    ghost use Rattle.node_store.specs.Two.{two_depth};
    ghost use Rattle.node_store.specs.TwoLaws.{AreTwo-grown, two_depth-stays};
    ghost use Rattle.node_store.specs.Views.{AreTwo};
    ghost use Rattle.zdd_ops.specs.Quotients.{QuotientAnswers, QuotientDue, QuotientSplits, quotient_work};
    ghost use Rattle.zdd_ops.specs.QuotientLasts.{QuotientAnswers-stay, QuotientDue-stays, QuotientSplits-stay, quotient_work-stays};

    ghost roots = { λ o w. AreTwo Zdd w o.p o.q };

    ghost work = { λ o. quotient_work o.p o.q };

    ghost due = { λ o. QuotientDue o.p o.q };

    ghost answers = { λ _. QuotientAnswers };

    ghost overflows = { λ _ _ _. ⊥ };

    ghost splits = { λ _. QuotientSplits };

    ghost depth = { λ _. two_depth Zdd };

    ghost extra = { λ _ w. w.elements };

    fn expand(&self, store: &mut G, task: Task) -> Result<Expansion, Halt> {
        if let Some(edge) = terminal(task.f, task.g) {
            return Ok(Expansion::Done(edge));
        }
        if let Some(edge) = store.memo_get(&key_of(task.f, task.g)) {
            return Ok(Expansion::Done(edge));
        }
        match split_two(store, task.f, task.g) {
            Split::Leaves(_, _) => unreachable!(),
            Split::At(halves) => Ok(Expansion::Split(divide(store, task, halves.top.var))),
        }
    }

    fn join(
        &self,
        store: &mut G,
        stack: &mut Stack,
        task: Task,
        var: u32,
        hi: Edge,
        lo: Edge,
    ) -> Result<Edge, Halt> {
        match divisor_at(store, task.g, var) {
            Divisor::Lacks => Ok(store.make(var, hi, lo)?),
            Divisor::Has(_, without) => {
                if is_empty(store, without) {
                    Ok(hi)
                } else {
                    Ok(meet(store, stack, hi, lo)?)
                }
            }
        }
    }

    fn key(&self, task: Task) -> Option<Key> {
        Some(key_of(task.f, task.g))
    }

    ghost roots_stay = { λ o v w m d. AreTwo-grown Zdd m d };

    ghost work_stays = { λ o. quotient_work-stays o.p o.q };

    ghost due_stays = { λ o. QuotientDue-stays o.p o.q };

    ghost answers_stay = { λ o v w t e m d. QuotientAnswers-stay v w t e m d.two };

    ghost splits_stay = { λ o v w t x a b m d. QuotientSplits-stay v w t x a b m d.two };

    ghost depth_stays = { λ o v w t m d. two_depth-stays Zdd v w t m d.two };

    ghost overflow_hi = { λ o w t x a b d s bad. bad };

    ghost overflow_lo = { λ o w t x a b d s bad. bad };

    ghost extra_stays = { λ o v w m. m.elements };
}

impl<G: Grow> Operation<G> for Division {
    ghost use Rattle.edge_bits.specs.declared.edges.Kind.TheVariants.{Zdd};
    ghost use Rattle.node_store.specs.TwoLaws.{AreTwo-grown};
    ghost use Rattle.node_store.specs.Views.{AreTwo, Denotes, family_at};
    ghost use Rattle.zdd_ops.specs.Quotients.{quotient_at, quotient_work};
    ghost use Rattle.zdd_ops.specs.QuotientLasts.{quotient-lasts, quotient_work-back};

    ghost kind = { Zdd };

    ghost asks = { λ o w. AreTwo Zdd w o.p o.q };

    ghost answers = { λ o v w e. Denotes Zdd w e (quotient_at v (family_at v o.p) (family_at v o.q)) };

    ghost overflows = { λ _ _. ⊥ };

    ghost work = { λ o. quotient_work o.p o.q };

    fn answer_kind(&self) -> Kind {
        Kind::Zdd
    }

    fn run(self, store: &mut G, stack: &mut Stack) -> Result<Edge, Halt> {
        Ok(quotient(store, stack, self.p, self.q)?)
    }

    ghost asks_stay = { λ o v w m. AreTwo-grown Zdd m };

    ghost answers_last = { λ o. quotient-lasts o.p o.q };

    ghost overflows_back = { λ o v w m d over. over };

    ghost work_back = { λ o. quotient_work-back o.p o.q };
}

/// The quotient by Empty, or by Base, and that of Empty.
fn terminal(f: Edge, g: Edge) -> Option<Edge>
    ensures { (w : View) → Permanent w → AreTwo Zdd w f g → IsQuotientTerminal w f g result }
{
    if g.index() == EMPTY_SLOT {
        return Some(g);
    }
    if f.index() == EMPTY_SLOT {
        return Some(f);
    }
    if g.index() == BASE_SLOT {
        return Some(f);
    }
    None
}

fn key_of(f: Edge, g: Edge) -> Key
    ensures { result ≡ quotient_key f g }
{
    Key {
        op: numbers::QUOTIENT,
        f,
        g,
        h: f,
    }
}

/// The two quotients of which that of a task is made, at an element that is not below its families.
fn divide<G: Grow>(store: &mut G, task: Task, var: u32) -> Branch
    requires { CanPartBoth (G.view store.old) task var }
    ensures kept { Kept (G.view store.old) (G.view store.new) }
    ensures split { IsSplitTask (G.view store.new) task var result }
{
    let Task { f, g, h } = task;
    let (f1, f0) = parts(store, f, var);
    match divisor_at(store, g, var) {
        Divisor::Has(g1, g0) => Branch {
            task: Task { f, g, h },
            flip: false,
            var,
            hi: Task::two(f1, g1),
            lo: Task::two(f0, g0),
        },
        Divisor::Lacks => Branch {
            task: Task { f, g, h },
            flip: false,
            var,
            hi: Task::two(f1, g),
            lo: Task::two(f0, g),
        },
    }
}

/// How a divisor stands to an element that is not below it.
#[derive(Clone, Copy, Drop)]
pub(crate) enum Divisor {
    /// It has members with the element, and perhaps others: the family of these, without the element, and that of the others.
    Has(Edge, Edge),
    /// No member has the element.
    Lacks,
}

fn divisor_at<G: Grow>(store: &mut G, edge: Edge, var: u32) -> Divisor
    requires { CanPart Zdd (G.view store.old) edge var }
    ensures kept { Kept (G.view store.old) (G.view store.new) }
    ensures divided { IsDivided (G.view store.new) edge var result }
{
    match store.open(edge) {
        Opened::Inner(top, hi, lo) => {
            if top == var {
                Divisor::Has(hi, lo)
            } else {
                Divisor::Lacks
            }
        }
        Opened::Leaf(_) => Divisor::Lacks,
    }
}

/// Whether a family has no member.
fn is_empty<G: Grow>(store: &mut G, edge: Edge) -> bool
    requires { Is Zdd (G.view store.old) edge }
    ensures kept { Kept (G.view store.old) (G.view store.new) }
    ensures yes { result ≡ true → family_at (G.view store.old) edge ≡ empty }
    ensures no { result ≡ false → HasMember (family_at (G.view store.old) edge) }
{
    match store.open(edge) {
        Opened::Inner(_, _, _) => false,
        Opened::Leaf(value) => value == 0,
    }
}
