//! The quantifiers over a list of variables, as public calls run them.

ghost use Rattle.std.specs.Prelude.{◌≡◌, ◌≤◌, ◌*◌};
ghost use Rattle.std.specs.List.{All};
ghost use Rattle.edge_bits.specs.declared.edges.Kind.TheVariants.{Bdd};
ghost use Rattle.function_laws.specs.Values.{exists_all};
ghost use Rattle.node_store.specs.Operations.{Runs};
ghost use Rattle.node_store.specs.Stacks.{levels_in};
ghost use Rattle.node_store.specs.Views.{AreTwo, IsVariable, Permanent};
ghost use Rattle.quantify_ops.specs.Quantified.{both_at};
ghost use Rattle.quantify_ops.specs.Works.{work_of_and_exists};

use crate::products::product;
use crate::quantification::quantify;
use edge_bits::{Edge, Kind};
use node_store::operator::Halt;
use node_store::scratch::Operation;
use node_store::{Grow, Stack};

/// A function that is quantified over the variables of a list.
#[derive(Drop)]
pub(crate) struct Exists<'a> {
    pub f: Edge,
    pub vars: &'a [u32],
}

impl<G: Grow> Operation<G> for Exists<'_> {
    ghost use Rattle.edge_bits.specs.declared.edges.Kind.TheVariants.{Bdd};
    ghost use Rattle.function_laws.specs.Values.{exists_all};
    ghost use Rattle.node_store.specs.Views.{Denotes, bdd_at};
    ghost use Rattle.quantify_ops.specs.Works.{HasVariables, work_of_exists};
    ghost use Rattle.quantify_ops.specs.WorksLasts.{HasVariables-grown, exists-lasts, work_of_exists-back};

    ghost kind = { Bdd };

    ghost asks = { λ o w. HasVariables w o.f o.vars.now };

    ghost answers = { λ o v w e. Denotes Bdd w e (exists_all (bdd_at v o.f) o.vars.now) };

    ghost overflows = { λ _ _. ⊥ };

    ghost work = { λ o. work_of_exists o.f o.vars.now };

    fn answer_kind(&self) -> Kind {
        Kind::Bdd
    }

    fn run(self, store: &mut G, stack: &mut Stack) -> Result<Edge, Halt> {
        let one = Edge::truth(true);
        over_product(store, stack, one, self.f, self.vars)
    }

    ghost asks_stay = { λ o v w. HasVariables-grown o.f o.vars.now v w };

    ghost answers_last = { λ o. exists-lasts o.f o.vars.now };

    ghost overflows_back = { λ o v w m d bad. bad };

    ghost work_back = { λ o v w h m d. work_of_exists-back v w o.f o.vars.now m d.operand h };
}

/// Two functions whose conjunction is quantified over the variables of a list.
#[derive(Drop)]
pub(crate) struct AndExists<'a> {
    pub f: Edge,
    pub g: Edge,
    pub vars: &'a [u32],
}

impl<G: Grow> Operation<G> for AndExists<'_> {
    ghost use Rattle.edge_bits.specs.declared.edges.Kind.TheVariants.{Bdd};
    ghost use Rattle.function_laws.specs.Values.{exists_all};
    ghost use Rattle.node_store.specs.Views.{Denotes};
    ghost use Rattle.quantify_ops.specs.Quantified.{both_at};
    ghost use Rattle.quantify_ops.specs.Works.{HaveVariables, work_of_and_exists};
    ghost use Rattle.quantify_ops.specs.WorksLasts.{HaveVariables-grown, and_exists-lasts, work_of_and_exists-back};

    ghost kind = { Bdd };

    ghost asks = { λ o w. HaveVariables w o.f o.g o.vars.now };

    ghost answers = { λ o v w e. Denotes Bdd w e (exists_all (both_at v o.f o.g) o.vars.now) };

    ghost overflows = { λ _ _. ⊥ };

    ghost work = { λ o. work_of_and_exists o.f o.g o.vars.now };

    fn answer_kind(&self) -> Kind {
        Kind::Bdd
    }

    fn run(self, store: &mut G, stack: &mut Stack) -> Result<Edge, Halt> {
        over_product(store, stack, self.f, self.g, self.vars)
    }

    ghost asks_stay = { λ o v w. HaveVariables-grown o.f o.g o.vars.now v w };

    ghost answers_last = { λ o. and_exists-lasts o.f o.g o.vars.now };

    ghost overflows_back = { λ o v w m d bad. bad };

    ghost work_back = { λ o v w h m d. work_of_and_exists-back v w o.f o.g o.vars.now m d.operands h };
}

/// Makes the product of the variables first.
fn over_product<G: Grow>(
    store: &mut G,
    stack: &mut Stack,
    f: Edge,
    g: Edge,
    vars: &[u32],
) -> Result<Edge, Halt>
    requires operands { AreTwo Bdd (G.view store.old) f g }
    requires in_range { All (IsVariable Bdd (G.view store.old)) vars.now }
    requires permanent { Permanent (G.view store.old) }
    requires room { (G.view store.old).vars ≤ levels_in stack.old }
    ensures runs { Runs Bdd (exists_all (both_at (G.view store.old) f g) vars.now) (work_of_and_exists f g vars.now (G.view store.old)) (G.view store.old) (G.view store.new) result }
    ensures frames { stack.new.frames ≡ stack.old.frames }
    ensures room { levels_in stack.new ≡ levels_in stack.old }
{
    let cube = product(store, stack, vars)?;
    quantify(store, stack, f, g, cube)
}
