//! Composition: a function that is put for a variable of another.

ghost use Rattle.std.specs.Prelude.{◌≡◌, ◌≤◌, ◌*◌};
ghost use Rattle.node_store.specs.declared.numbers.TheConstants as numbers;
ghost use Rattle.node_store.specs.Operations.{Runs};
ghost use Rattle.edge_bits.specs.declared.edges.Kind.TheVariants.{Bdd};
ghost use Rattle.node_store.specs.Splits.{Expanded};
ghost use Rattle.node_store.specs.Two.{two_depth};
ghost use Rattle.node_store.specs.Views.{AreTwo, IsVariable, Kept, Permanent};
ghost use Rattle.ite_core.specs.Cofactors.{HasCofactor};
ghost use Rattle.quantify_ops.specs.Composed.{ComposeAnswers, ComposeDue, ComposeSplits, IsFound, composed_at, value_of_compose};

use edge_bits::{Edge, Kind};
use ite_core::nested::ite;
use node_store::binary::{Apply, Binary, Branch, Expansion, flip_if};
use node_store::evaluate::evaluate;
use node_store::operator::{Halt, Task};
use node_store::parts::{Split, split_two};
use node_store::scratch::Operation;
use node_store::{Grow, Key, Opened, Stack, numbers};

/// The composition of two functions by a variable, as the evaluator runs it.
#[derive(Drop)]
pub(crate) struct Composition {
    pub f: Edge,
    pub var: u32,
    pub g: Edge,
    /// The projection that stands for the variable in a key.
    pub projection: Edge,
}

impl<G: Grow> Apply<G> for Composition {
    ghost use Rattle.edge_bits.specs.declared.edges.Kind.TheVariants.{Bdd};
    ghost use Rattle.node_store.specs.Two.{two_depth};
    ghost use Rattle.node_store.specs.TwoLaws.{two_depth-stays};
    ghost use Rattle.quantify_ops.specs.Composed.{AreComposed, value_of_compose, ComposeDue, ComposeAnswers, ComposeSplits};
    ghost use Rattle.quantify_ops.specs.ComposedLasts.{AreComposed-grown, value_of_compose-stays, ComposeDue-stays, ComposeAnswers-stay, ComposeSplits-stay};

    ghost roots = { λ o w. AreComposed w o.f o.var o.g };

    ghost work = { λ o. value_of_compose o.f o.var o.g };

    ghost due = { λ o. ComposeDue o.f o.var o.g o.projection };

    ghost answers = { λ o. ComposeAnswers o.var };

    ghost overflows = { λ _ _ _. ⊥ };

    ghost splits = { λ o. ComposeSplits o.f o.var o.g };

    ghost depth = { λ _. two_depth Bdd };

    ghost extra = { λ _ w. w.vars };

    fn expand(&self, store: &mut G, task: Task) -> Result<Expansion, Halt> {
        Ok(self.expansion(store, task))
    }

    fn join(
        &self,
        store: &mut G,
        stack: &mut Stack,
        task: Task,
        var: u32,
        hi: Edge,
        lo: Edge,
    ) -> Result<Edge, Halt> {
        if var == self.var {
            Ok(ite(store, stack, task.g, hi, lo)?)
        } else {
            Ok(store.make(var, hi, lo)?)
        }
    }

    fn key(&self, task: Task) -> Option<Key> {
        Some(key_of(task, self.projection))
    }

    ghost roots_stay = { λ o v w m d. AreComposed-grown m d };

    ghost work_stays = { λ o. value_of_compose-stays o.f o.var o.g };

    ghost due_stays = { λ o. ComposeDue-stays o.f o.var o.g o.projection };

    ghost answers_stay = { λ o v w t e m d. ComposeAnswers-stay o.var v w t e m d.two };

    ghost splits_stay = { λ o v w t x a b m d. ComposeSplits-stay o.f o.var o.g v w t x a b m d.root d.two };

    ghost depth_stays = { λ o v w t m d. two_depth-stays Bdd v w t m d.two };

    ghost overflow_hi = { λ o w t x a b d s bad. bad };

    ghost overflow_lo = { λ o w t x a b d s bad. bad };

    ghost extra_stays = { λ o v w m. m.vars };
}

impl Composition {
    /// The answer of a task, or its parts in normal form, in which the first function is regular.
    fn expansion<G: Grow>(&self, store: &mut G, task: Task) -> Expansion
        requires { ComposeDue self.now.f self.now.var self.now.g self.now.projection (G.view store.old) task }
        ensures kept { Kept (G.view store.old) (G.view store.new) }
        ensures expanded { Expanded (ComposeDue self.now.f self.now.var self.now.g self.now.projection) (ComposeAnswers self.now.var) (λ _ _. ⊥) (ComposeSplits self.now.f self.now.var self.now.g) (two_depth Bdd) (G.view store.new) task result }
    {
        // A complement's composition is the composition's complement.
        let flip = task.f.complement();
        let Task { f, g, h } = Task::two(task.f.regular(), task.g);
        let found = find(store, f, self.var);
        if let Found::Free = found {
            return Expansion::Done(flip_if(f, flip));
        }
        let key = key_of(Task { f, g, h }, self.projection);
        if let Some(edge) = store.memo_get(&key) {
            return Expansion::Done(flip_if(edge, flip));
        }
        if let Found::Own(hi, lo) = found {
            return Expansion::Split(Branch {
                task: Task { f, g, h },
                flip,
                var: self.var,
                hi: Task::two(hi, hi),
                lo: Task::two(lo, lo),
            });
        }
        match split_two(store, f, g) {
            Split::Leaves(_, _) => unreachable!(),
            Split::At(halves) => Expansion::Split(Branch {
                task: Task { f, g, h },
                flip,
                var: halves.top.var,
                hi: halves.hi,
                lo: halves.lo,
            }),
        }
    }
}

/// A function with another put for a variable, on this stack.
pub(crate) fn put<G: Grow>(
    store: &mut G,
    stack: &mut Stack,
    f: Edge,
    var: u32,
    g: Edge,
) -> Result<Edge, Halt>
    requires operands { AreTwo Bdd (G.view store.old) f g }
    requires in_range { IsVariable Bdd (G.view store.old) var }
    requires permanent { Permanent (G.view store.old) }
    requires room { 2 * (G.view store.old).vars ≤ stack.old.free }
    ensures runs { Runs Bdd (composed_at (G.view store.old) f var g) (value_of_compose f var g (G.view store.old)) (G.view store.old) (G.view store.new) result }
    ensures stack { stack.new ≡ stack.old }
{
    let projection = store.projection(var);
    let op = Composition {
        f,
        var,
        g,
        projection,
    };
    evaluate(store, stack, &Binary(op), Task::two(f, g))
}

/// A function, a variable, and the function that is put for it.
#[derive(Drop)]
pub(crate) struct Composed {
    pub f: Edge,
    pub var: u32,
    pub g: Edge,
}

impl<G: Grow> Operation<G> for Composed {
    ghost use Rattle.edge_bits.specs.declared.edges.Kind.TheVariants.{Bdd};
    ghost use Rattle.node_store.specs.Views.{Denotes};
    ghost use Rattle.quantify_ops.specs.Composed.{AreComposed, composed_at, value_of_compose};
    ghost use Rattle.quantify_ops.specs.ComposedLasts.{AreComposed-grown, composed_at-lasts, value_of_compose-back};

    ghost kind = { Bdd };

    ghost asks = { λ o w. AreComposed w o.f o.var o.g };

    ghost answers = { λ o v w e. Denotes Bdd w e (composed_at v o.f o.var o.g) };

    ghost overflows = { λ _ _. ⊥ };

    ghost work = { λ o. value_of_compose o.f o.var o.g };

    fn answer_kind(&self) -> Kind {
        Kind::Bdd
    }

    fn run(self, store: &mut G, stack: &mut Stack) -> Result<Edge, Halt> {
        put(store, stack, self.f, self.var, self.g)
    }

    ghost asks_stay = { λ o v w m. AreComposed-grown m };

    ghost answers_last = { λ o. composed_at-lasts o.f o.var o.g };

    ghost overflows_back = { λ o v w m d bad. bad };

    ghost work_back = { λ o. value_of_compose-back o.f o.var o.g };
}

/// Where a function stands to a variable: it does not depend on it, its top node is of it, or its top variable stands above it.
#[derive(Clone, Copy, PartialEq, Eq, Drop)]
pub(crate) enum Found {
    Free,
    Own(Edge, Edge),
    Above,
}

/// Opens the function.
fn find<G: Grow>(store: &mut G, f: Edge, var: u32) -> Found
    requires { HasCofactor (G.view store.old) f var }
    ensures kept { Kept (G.view store.old) (G.view store.new) }
    ensures found { IsFound (G.view store.new) f var result }
{
    let Opened::Inner(top, hi, lo) = store.open(f) else {
        return Found::Free;
    };
    if top == var {
        return Found::Own(hi, lo);
    }
    let level = store.level(var);
    let top_level = store.level(top);
    if level < top_level {
        return Found::Free;
    }
    Found::Above
}

/// The key of a composition.
fn key_of(task: Task, projection: Edge) -> Key
    ensures { result ≡ record { op = numbers.COMPOSE; f = task.f; g = task.g; h = projection } }
{
    Key {
        op: numbers::COMPOSE,
        f: task.f,
        g: task.g,
        h: projection,
    }
}
