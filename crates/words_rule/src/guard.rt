//! The journal.
ghost use Rattle.std.specs.Prelude.{◌≡◌, ◌<◌, ◌^◌, length, true, false, All};
ghost use Rattle.function_laws.specs.declared.history.Entry.{Entry};
ghost use Rattle.words_rule.specs.declared.view.Hold.TheVariants.{Holding};
ghost use Rattle.words_rule.specs.Views.{told_of, known_after, MayTell};
ghost use Rattle.words_rule.specs.Moves.{MayMove};
ghost use Rattle.words_rule.specs.Ordered.{is_ordering};
ghost use Rattle.words_rule.specs.Refusals.{MayRefuse, is_refused};
ghost use Rattle.words_rule.specs.Tallies.{counts_after};
ghost use Rattle.words_rule.specs.Passes.{view, in_hand, IsLiveOf, IsPassOf};

use crate::content::Content;
use crate::layout::JOURNAL;
use crate::plays::Draw;
use crate::seat::{Guard, Pass};
use crate::told::Told;

impl<S: Content> Guard<S> {
    /// Draws the place of a call. That an operation was refused is told only with the free list in hand, with no slot on it, where a word is
    /// wanted that no slot has.
    pub fn place<E: Told>(&self, pass: &mut Pass<S>) -> u64
        requires own { IsLiveOf self.now pass.old }
        requires room { length (view pass.old).draws.entries < 2 ^ 48 }
        requires step { MayTell (view pass.old).draws E.told }
        requires moves { MayMove (view pass.old).draws (view pass.old).counts E.told }
        requires orders { ((view pass.old).shares.order ≡ Holding → ⊥) → is_ordering E.told.call ≡ false }
        requires full { is_refused E.told ≡ true → MayRefuse (view pass.old) }
        ensures own { IsPassOf self.now pass.new × (in_hand pass.new ≡ in_hand pass.old) }
        ensures drew { view pass.new ≡ record (view pass.old) { draws = told_of (view pass.old).draws result E.told; known = known_after (view pass.old).known E.told; counts = counts_after E.told.change (view pass.old).draws.cells (view pass.old).draws.rows (view pass.old).counts } }
        ensures later { All (λ (e : Entry). e.place < result) (view pass.old).draws.entries }
    {
        self.table
            .shared
            .fetch_add::<Draw<E>>(&mut pass.seat, JOURNAL, 1)
    }
}
