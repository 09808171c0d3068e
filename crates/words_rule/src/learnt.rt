//! The holder of the order learns the store.
ghost use Rattle.std.specs.Prelude.{◌≡◌, [], None};
ghost use Rattle.words_rule.specs.declared.view.Hold.TheVariants.{Holding};
ghost use Rattle.words_rule.specs.HolderPlays.{HasLearnt};
ghost use Rattle.words_rule.specs.Passes.{view, in_hand, IsLiveOf, IsPassOf};

use crate::content::Content;
use crate::holder_plays::LearnAll;
use crate::layout::PHASE;
use crate::seat::{Guard, Pass};

impl<S: Content> Guard<S> {
    /// Looks at the phase word. Under the order hold the seat knows from then on the words of all slots, what they denote, their
    /// generations and counts. The functions of all slots that are counted are noted.
    pub fn learn(&self, pass: &mut Pass<S>)
        requires own { IsLiveOf self.now pass.old }
        requires hold { (view pass.old).shares.order ≡ Holding }
        requires fresh { ((view pass.old).counts.pins ≡ []) × ((view pass.old).counts.zeros ≡ []) }
        requires settled { (view pass.old).known.half ≡ None }
        ensures own { IsPassOf self.now pass.new × (in_hand pass.new ≡ in_hand pass.old) }
        ensures learnt { HasLearnt (view pass.old) (view pass.new) }
    {
        self.table.shared.load::<LearnAll>(&mut pass.seat, PHASE);
    }
}
