//! Composition of several functions at once: each is put for a variable of another.

ghost use Rattle.std.specs.Prelude.{◌≡◌, ◌≤◌, ◌*◌};
ghost use Rattle.edge_bits.specs.declared.edges.Kind.TheVariants.{Bdd};
ghost use Rattle.node_store.specs.Operations.{Runs};
ghost use Rattle.node_store.specs.Remembering.{IsBlank};
ghost use Rattle.std.specs.List.{All};
ghost use Rattle.node_store.specs.Views.{Kept, Permanent};
ghost use Rattle.quantify_ops.specs.Substituted.{AreSubstituted, IsPair, ReachesDownTo, lower_of, substituted_at, value_of_vector_compose};

use edge_bits::{Edge, Kind};
use ite_core::nested::ite;
use node_store::binary::{Apply, Branch, Expansion};
use node_store::evaluate::evaluate;
use node_store::operator::{Halt, Task};
use node_store::remembering::Remembering;
use node_store::scratch::Operation;
use node_store::{Grow, Key, Opened, Stack};

/// A composition of several functions, as the evaluator runs it. Its answers stand in the table of the call, since no key has room for the pairs.
#[derive(Drop)]
pub(crate) struct Substitution<'a> {
    pub f: Edge,
    /// The variables, each with the function that is put for it.
    pub pairs: &'a [(u32, Edge)],
    /// The level of the lowest of these variables.
    pub lowest: Option<u32>,
}

impl<G: Grow> Apply<G> for Substitution<'_> {
    ghost use Rattle.ite_core.specs.Cofactors.{one_depth};
    ghost use Rattle.ite_core.specs.CofactorLasts.{one_depth-stays};
    ghost use Rattle.quantify_ops.specs.Substituted.{AreSubstituted, value_of_vector_compose, SubstituteDue, SubstituteAnswers, SubstituteSplits};
    ghost use Rattle.quantify_ops.specs.SubstitutedLasts.{AreSubstituted-grown, value_of_vector_compose-stays, SubstituteDue-stays, SubstituteAnswers-stay, SubstituteSplits-stay};

    ghost roots = { λ o w. AreSubstituted w o.f o.pairs.now };

    ghost work = { λ o. value_of_vector_compose o.f o.pairs.now };

    ghost due = { λ o. SubstituteDue o.f o.pairs.now o.lowest };

    ghost answers = { λ o. SubstituteAnswers o.pairs.now };

    ghost overflows = { λ _ _ _. ⊥ };

    ghost splits = { λ _. SubstituteSplits };

    ghost depth = { λ _. one_depth };

    ghost extra = { λ _ w. w.vars };

    fn expand(&self, store: &mut G, task: Task) -> Result<Expansion, Halt> {
        let Opened::Inner(var, hi, lo) = store.open(task.f) else {
            return Ok(Expansion::Done(task.f));
        };
        let level = store.level(var);
        if self.ends_above(level) {
            return Ok(Expansion::Done(task.f));
        }
        Ok(Expansion::Split(Branch {
            task,
            flip: false,
            var,
            hi: Task::two(hi, hi),
            lo: Task::two(lo, lo),
        }))
    }

    fn join(
        &self,
        store: &mut G,
        stack: &mut Stack,
        _task: Task,
        var: u32,
        hi: Edge,
        lo: Edge,
    ) -> Result<Edge, Halt> {
        let image = self.image(store, var);
        Ok(ite(store, stack, image, hi, lo)?)
    }

    fn key(&self, _task: Task) -> Option<Key> {
        None
    }

    ghost roots_stay = { λ o v w m d. AreSubstituted-grown m d };

    ghost work_stays = { λ o. value_of_vector_compose-stays o.f o.pairs.now };

    ghost due_stays = { λ o. SubstituteDue-stays o.f o.pairs.now o.lowest };

    ghost answers_stay = { λ o v w t e m d. SubstituteAnswers-stay o.pairs.now v w t e m d.root.each d.edge };

    ghost splits_stay = { λ o v w t x a b m d. SubstituteSplits-stay v w t x a b m d.edge };

    ghost depth_stays = { λ o v w t m d. one_depth-stays v w t m d.edge };

    ghost overflow_hi = { λ o w t x a b d s bad. bad };

    ghost overflow_lo = { λ o w t x a b d s bad. bad };

    ghost extra_stays = { λ o v w m. m.vars };
}

impl Substitution<'_> {
    ghost use Rattle.std.specs.Prelude.{◌≡◌, true, false};
    ghost use Rattle.edge_bits.specs.declared.edges.Kind.TheVariants.{Bdd};
    ghost use Rattle.node_store.specs.Views.{IsVariable, Kept};
    ghost use Rattle.quantify_ops.specs.Substituted.{IsBelowAll, IsImage};

    /// Whether all of the pairs' variables stand above the level.
    fn ends_above(&self, level: u32) -> bool
        ensures { result ≡ true → IsBelowAll self.now.lowest level }
    {
        match self.lowest {
            Some(lowest) => lowest < level,
            None => true,
        }
    }

    /// The function that is put for a variable; of one for which none is put its projection.
    fn image<G: Grow>(&self, store: &mut G, var: u32) -> Edge
        requires { IsVariable Bdd (G.view store.old) var }
        ensures kept { Kept (G.view store.old) (G.view store.new) }
        ensures image { IsImage (G.view store.new) self.now.pairs.now var result }
    {
        match self.pairs.iter().find(|pair| pair.0 == var) {
            Some(pair) => pair.1,
            None => store.projection(var),
        }
    }
}

/// A function with others put for some of its variables, on this stack, whose table is blank.
fn substitute<G: Grow>(
    store: &mut G,
    stack: &mut Stack,
    f: Edge,
    pairs: &[(u32, Edge)],
    lowest: Option<u32>,
) -> Result<Edge, Halt>
    requires operands { AreSubstituted (G.view store.old) f pairs.now }
    requires reach { All (ReachesDownTo (G.view store.old) lowest) pairs.now }
    requires permanent { Permanent (G.view store.old) }
    requires room { 2 * (G.view store.old).vars ≤ stack.old.free }
    requires blank { IsBlank stack.old.answers }
    ensures runs { Runs Bdd (substituted_at (G.view store.old) f pairs.now) (value_of_vector_compose f pairs.now (G.view store.old)) (G.view store.old) (G.view store.new) result }
    ensures frames { stack.new.frames ≡ stack.old.frames }
    ensures free { stack.new.free ≡ stack.old.free }
    ensures marks { stack.new.marks ≡ stack.old.marks }
{
    let op = Substitution { f, pairs, lowest };
    evaluate(store, stack, &Remembering(op), Task::two(f, f))
}

/// A function, and variables with the functions that are put for them.
#[derive(Drop)]
pub(crate) struct Substituted<'a> {
    pub f: Edge,
    pub pairs: &'a [(u32, Edge)],
}

impl<G: Grow> Operation<G> for Substituted<'_> {
    ghost use Rattle.edge_bits.specs.declared.edges.Kind.TheVariants.{Bdd};
    ghost use Rattle.node_store.specs.Views.{Denotes};
    ghost use Rattle.quantify_ops.specs.Substituted.{AreSubstituted, substituted_at, value_of_vector_compose};
    ghost use Rattle.quantify_ops.specs.SubstitutedLasts.{AreSubstituted-grown, substituted_at-lasts, value_of_vector_compose-back};

    ghost kind = { Bdd };

    ghost asks = { λ o w. AreSubstituted w o.f o.pairs.now };

    ghost answers = { λ o v w e. Denotes Bdd w e (substituted_at v o.f o.pairs.now) };

    ghost overflows = { λ _ _. ⊥ };

    ghost work = { λ o. value_of_vector_compose o.f o.pairs.now };

    fn answer_kind(&self) -> Kind {
        Kind::Bdd
    }

    fn run(self, store: &mut G, stack: &mut Stack) -> Result<Edge, Halt> {
        let lowest = lowest_level(store, self.pairs);
        substitute(store, stack, self.f, self.pairs, lowest)
    }

    ghost asks_stay = { λ o v w m d. AreSubstituted-grown m d };

    ghost answers_last = { λ o. substituted_at-lasts o.f o.pairs.now };

    ghost overflows_back = { λ o v w m d bad. bad };

    ghost work_back = { λ o v w h. value_of_vector_compose-back o.f o.pairs.now v w h };
}

/// The level of the lowest of the pairs' variables.
fn lowest_level<G: Grow>(store: &mut G, pairs: &[(u32, Edge)]) -> Option<u32>
    requires { All (IsPair (G.view store.old)) pairs.now }
    ensures kept { Kept (G.view store.old) (G.view store.new) }
    ensures reach { All (ReachesDownTo (G.view store.new) result) pairs.now }
{
    let mut lowest = None;
    for pair in pairs {
        let level = store.level(pair.0);
        lowest = Some(lower(lowest, level));
    }
    lowest
}

/// The lower one of two levels, of which the first may be missing.
fn lower(first: Option<u32>, second: u32) -> u32
    ensures { result ≡ lower_of first second }
{
    match first {
        Some(level) => level.max(second),
        None => second,
    }
}
