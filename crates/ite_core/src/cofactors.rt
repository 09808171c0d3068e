//! Cofactors by a variable.

ghost use Rattle.std.specs.Prelude.{◌≡◌, ◌≤◌};
ghost use Rattle.edge_bits.specs.declared.edges.Kind.TheVariants.{Bdd};
ghost use Rattle.node_store.specs.declared.numbers.TheConstants as numbers;
ghost use Rattle.node_store.specs.Operations.{Runs};
ghost use Rattle.node_store.specs.Views.{Is, IsVariable, Kept, Permanent};
ghost use Rattle.ite_core.specs.Cofactors.{HasCofactor, IsFound, cofactor_at, value_of_cofactor};

use edge_bits::{Edge, Kind};
use node_store::binary::{Apply, Binary, Branch, Expansion, flip_if};
use node_store::evaluate::evaluate;
use node_store::operator::{Halt, Task};
use node_store::scratch::Operation;
use node_store::{Grow, Key, Opened, Stack, numbers};

/// The cofactor of a function, as the evaluator runs it.
#[derive(Drop)]
pub(crate) struct Instantiation {
    pub f: Edge,
    pub var: u32,
    pub bit: bool,
    /// The literal that stands for both in a key.
    pub literal: Edge,
}

impl<G: Grow> Apply<G> for Instantiation {
    ghost use Rattle.std.specs.Prelude.{refl};
    ghost use Rattle.ite_core.specs.Cofactors.{HasCofactor, value_of_cofactor, CofactorDue, CofactorAnswers, CofactorSplits, one_depth};
    ghost use Rattle.ite_core.specs.CofactorLasts.{HasCofactor-grown, value_of_cofactor-stays, CofactorDue-stays, CofactorAnswers-stay, CofactorSplits-stay, one_depth-stays};

    ghost roots = { λ o w. HasCofactor w o.f o.var };

    ghost work = { λ o. value_of_cofactor o.f o.var o.bit };

    ghost due = { λ o. CofactorDue o.f o.var o.bit o.literal };

    ghost answers = { λ o. CofactorAnswers o.var o.bit };

    ghost overflows = { λ _ _ _. ⊥ };

    ghost splits = { λ o. CofactorSplits o.var };

    ghost depth = { λ _. one_depth };

    ghost extra = { λ _ _. 0 };

    fn expand(&self, store: &mut G, task: Task) -> Result<Expansion, Halt> {
        // A complement's cofactor is the cofactor's complement.
        let flip = task.f.complement();
        let f = task.f.regular();
        match find(store, f, self.var, self.bit) {
            Found::Answer(edge) => Ok(Expansion::Done(flip_if(edge, flip))),
            Found::Parts(var, hi, lo) => {
                let key = key_of(f, self.literal);
                match store.memo_get(&key) {
                    Some(edge) => Ok(Expansion::Done(flip_if(edge, flip))),
                    None => Ok(Expansion::Split(Branch {
                        task: Task::two(f, f),
                        flip,
                        var,
                        hi: Task::two(hi, hi),
                        lo: Task::two(lo, lo),
                    })),
                }
            }
        }
    }

    fn join(
        &self,
        store: &mut G,
        _stack: &mut Stack,
        _task: Task,
        var: u32,
        hi: Edge,
        lo: Edge,
    ) -> Result<Edge, Halt> {
        Ok(store.make(var, hi, lo)?)
    }

    fn key(&self, task: Task) -> Option<Key> {
        Some(key_of(task.f, self.literal))
    }

    ghost roots_stay = { λ o v w m d. HasCofactor-grown m d };

    ghost work_stays = { λ o. value_of_cofactor-stays o.f o.var o.bit };

    ghost due_stays = { λ o. CofactorDue-stays o.f o.var o.bit o.literal };

    ghost answers_stay = { λ o v w t e m d. CofactorAnswers-stay o.var o.bit v w t e m d.edge };

    ghost splits_stay = { λ o v w t x a b m d. CofactorSplits-stay o.var v w t x a b m d.edge };

    ghost depth_stays = { λ o v w t m d. one_depth-stays v w t m d.edge };

    ghost overflow_hi = { λ o w t x a b d s bad. bad };

    ghost overflow_lo = { λ o w t x a b d s bad. bad };

    ghost extra_stays = { λ _ _ _ _. refl };
}

/// A function with a variable set to this bit, on this stack.
pub(crate) fn instantiate<G: Grow>(
    store: &mut G,
    stack: &mut Stack,
    f: Edge,
    var: u32,
    bit: bool,
) -> Result<Edge, Halt>
    requires operand { Is Bdd (G.view store.old) f }
    requires in_range { IsVariable Bdd (G.view store.old) var }
    requires permanent { Permanent (G.view store.old) }
    requires room { (G.view store.old).vars ≤ stack.old.free }
    ensures runs { Runs Bdd (cofactor_at (G.view store.old) f var bit) (value_of_cofactor f var bit (G.view store.old)) (G.view store.old) (G.view store.new) result }
    ensures stack { stack.new ≡ stack.old }
{
    let literal = flip_if(store.projection(var), !bit);
    let op = Instantiation {
        f,
        var,
        bit,
        literal,
    };
    evaluate(store, stack, &Binary(op), Task::two(f, f))
}

/// A function, a variable and the bit to which it is set.
#[derive(Drop)]
pub(crate) struct Cofactor {
    pub f: Edge,
    pub var: u32,
    pub bit: bool,
}

impl<G: Grow> Operation<G> for Cofactor {
    ghost use Rattle.edge_bits.specs.declared.edges.Kind.TheVariants.{Bdd};
    ghost use Rattle.node_store.specs.Views.{Denotes};
    ghost use Rattle.ite_core.specs.Cofactors.{HasCofactor, cofactor_at, value_of_cofactor};
    ghost use Rattle.ite_core.specs.CofactorLasts.{HasCofactor-grown, cofactor_at-lasts, value_of_cofactor-back};

    ghost kind = { Bdd };

    ghost asks = { λ o w. HasCofactor w o.f o.var };

    ghost answers = { λ o v w e. Denotes Bdd w e (cofactor_at v o.f o.var o.bit) };

    ghost overflows = { λ _ _. ⊥ };

    ghost work = { λ o. value_of_cofactor o.f o.var o.bit };

    fn answer_kind(&self) -> Kind {
        Kind::Bdd
    }

    fn run(self, store: &mut G, stack: &mut Stack) -> Result<Edge, Halt> {
        instantiate(store, stack, self.f, self.var, self.bit)
    }

    ghost asks_stay = { λ o v w m. HasCofactor-grown m };

    ghost answers_last = { λ o. cofactor_at-lasts o.f o.var o.bit };

    ghost overflows_back = { λ o v w m d bad. bad };

    ghost work_back = { λ o. value_of_cofactor-back o.f o.var o.bit };
}

/// What the top node of a function tells of its cofactor: the answer, or the node's variable and children where that variable stands above the one that is set.
#[derive(Clone, Copy, PartialEq, Eq, Drop)]
pub(crate) enum Found {
    Answer(Edge),
    Parts(u32, Edge, Edge),
}

/// Opens the function.
fn find<G: Grow>(store: &mut G, f: Edge, var: u32, bit: bool) -> Found
    requires { HasCofactor (G.view store.old) f var }
    ensures kept { Kept (G.view store.old) (G.view store.new) }
    ensures found { IsFound (G.view store.new) f var bit result }
{
    let Opened::Inner(top, hi, lo) = store.open(f) else {
        return Found::Answer(f);
    };
    if top == var {
        return if bit {
            Found::Answer(hi)
        } else {
            Found::Answer(lo)
        };
    }
    let level = store.level(var);
    let top_level = store.level(top);
    if level < top_level {
        return Found::Answer(f);
    }
    Found::Parts(top, hi, lo)
}

/// The key of a function and a literal.
fn key_of(f: Edge, literal: Edge) -> Key
    ensures { result ≡ record { op = numbers.COFACTOR; f = f; g = literal; h = f } }
{
    Key {
        op: numbers::COFACTOR,
        f,
        g: literal,
        h: f,
    }
}
