//! The holder of the order takes slots off their chains.
ghost use Rattle.std.specs.Prelude.{◌≡◌, ◌<◌};
ghost use Rattle.words_rule.specs.Hands.{loosening};
ghost use Rattle.words_rule.specs.HeldContents.{KnowsAll};
ghost use Rattle.words_rule.specs.HolderPlays.{CanUnlink, IsAtFront, IsBehind};
ghost use Rattle.words_rule.specs.Layout.{heads};
ghost use Rattle.words_rule.specs.Shapes.{shape_in};
ghost use Rattle.words_rule.specs.declared.view.Hold.TheVariants.{Holding};
ghost use Rattle.words_rule.specs.Passes.{view, in_hand, IsLiveOf, IsPassOf};

use crate::content::Content;
use crate::holder_plays::{UnlinkFirst, UnlinkLater};
use crate::seat::{Guard, Pass};

impl<S: Content> Guard<S> {
    /// Takes the first slot of the chain that is known off it: its link is stored in the head.
    pub fn unlink_first(&self, pass: &mut Pass<S>, head: u32, slot: u32, link: u32)
        requires own { IsLiveOf self.now pass.old }
        requires hold { (view pass.old).shares.order ≡ Holding }
        requires knows { KnowsAll (view pass.old) }
        requires within { (head < heads (shape_in (view pass.old).draws)) × (slot < (view pass.old).draws.slots) }
        requires can { CanUnlink (view pass.old) slot }
        requires front { IsAtFront (view pass.old) head slot link }
        ensures own { IsPassOf self.now pass.new × (in_hand pass.new ≡ in_hand pass.old) }
        ensures off { view pass.new ≡ record (view pass.old) { hand = loosening slot (view pass.old).hand } }
    {
        let _ = slot;
        let word = pass.sizes.head(head);
        self.table
            .shared
            .store::<UnlinkFirst>(&mut pass.seat, word, link as u64);
    }

    /// Takes a later one off: its link is stored in the slot before it.
    pub fn unlink_later(&self, pass: &mut Pass<S>, before: u32, slot: u32, link: u32)
        requires own { IsLiveOf self.now pass.old }
        requires hold { (view pass.old).shares.order ≡ Holding }
        requires knows { KnowsAll (view pass.old) }
        requires within { (before < (view pass.old).draws.slots) × (slot < (view pass.old).draws.slots) }
        requires can { CanUnlink (view pass.old) slot }
        requires behind { IsBehind (view pass.old) before slot link }
        ensures own { IsPassOf self.now pass.new × (in_hand pass.new ≡ in_hand pass.old) }
        ensures off { view pass.new ≡ record (view pass.old) { hand = loosening slot (view pass.old).hand } }
    {
        let _ = slot;
        let word = pass.sizes.next(before);
        self.table
            .shared
            .store::<UnlinkLater>(&mut pass.seat, word, link as u64);
    }
}
