//! A seat with a walk share, as what a walk asks for.
ghost use Rattle.std.specs.Prelude.{◌≡◌, Some};
ghost use Rattle.edge_bits.specs.Permanent.{base_slot};
ghost use Rattle.function_laws.specs.Families.{base};
ghost use Rattle.function_laws.specs.Kinds.{ZddFamily};
ghost use Rattle.words_rule.specs.Loads.{IsInside, sees_of};
ghost use Rattle.words_rule.specs.Passes.{view};
ghost use Rattle.words_rule.specs.Tokens.{IsWalk};
ghost use Rattle.words_rule.specs.Walkers.{IsWalker};

use crate::content::Content;
use crate::seat::{Guard, Pass, WalkShare};
use crate::view::Besides;
use step_store::Walks;

/// A seat with a walk share at its table, and how many nodes it loaded.
#[derive(Drop)]
pub struct Walker<'a, S: Content> {
    pub(crate) guard: &'a Guard<S>,
    pub(crate) pass: Pass<S>,
    pub(crate) loads: u64,
}

impl<'a, S: Content> Walks for Walker<'a, S> {
    ghost use Rattle.words_rule.specs.Loads.{sees_of};
    ghost use Rattle.words_rule.specs.Passes.{view};
    ghost use Rattle.words_rule.specs.Walkers.{IsWalker, besides_of, walker_stands};

    type Rest = Besides;

    ghost sees = { λ w. sees_of (view w.pass) };

    ghost loads = { λ w. w.loads };

    ghost walks = { IsWalker };

    ghost table = { λ w. w.pass.seat.table_id.views_name };

    ghost rest = { λ w. besides_of w.pass.seat.table_id (view w.pass) };

    fn load_word(&mut self, slot: u32) -> u64 {
        self.loads = self.loads.saturating_add(1);
        self.guard.load_word(&mut self.pass, slot)
    }

    ghost stands = { walker_stands };
}

impl<S: Content> Guard<S> {
    /// The seat of a walk share, as what a walk asks for.
    pub fn walker<'a>(&'a self, share: WalkShare<S>) -> Walker<'a, S>
        requires own { IsWalk self.now share }
        requires base { (sees_of (view share.pass)).content base_slot ≡ Some (ZddFamily base) }
        requires inside { IsInside (view share.pass) }
        ensures { IsWalker result × (result.pass ≡ share.pass) }
    {
        let WalkShare { pass } = share;
        Walker {
            guard: self,
            pass,
            loads: 0,
        }
    }
}
