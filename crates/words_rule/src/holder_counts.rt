//! The holder of the order on count words.
ghost use Rattle.std.specs.Prelude.{◌≡◌, ◌+◌, ◌-◌, ◌<◌, ◌∷◌, true, false};
ghost use Rattle.handle_count.specs.CountWords.{count_of};
ghost use Rattle.node_store.specs.Contents.{IsUsed};
ghost use Rattle.words_rule.specs.declared.view.Hold.TheVariants.{Holding};
ghost use Rattle.words_rule.specs.HeldContents.{KnowsAll, held_content, numbers_without};
ghost use Rattle.words_rule.specs.HolderPlays.{HasFound, HasPinned, HasRenewed};
ghost use Rattle.words_rule.specs.OneSession.{count_by};
ghost use Rattle.words_rule.specs.Passes.{view, in_hand, IsLiveOf, IsPassOf};

use crate::content::Content;
use crate::holder_plays::{FindCount, PinSlot, Renew, UnpinSlot};
use crate::seat::{Guard, Pass};

impl<S: Content> Guard<S> {
    /// The count word of a slot, whose count is noted. Where the count was 0 it is still.
    pub fn find_count(&self, pass: &mut Pass<S>, slot: u32) -> u64
        requires own { IsLiveOf self.now pass.old }
        requires hold { (view pass.old).shares.order ≡ Holding }
        requires knows { KnowsAll (view pass.old) }
        requires within { slot < (view pass.old).draws.slots }
        ensures own { IsPassOf self.now pass.new × (in_hand pass.new ≡ in_hand pass.old) }
        ensures found { HasFound slot result (view pass.old) (view pass.new) }
        ensures one { (view pass.old).draws.sessions ≡ 1 → result ≡ count_by (view pass.old).stored slot }
    {
        let word = pass.sizes.count(slot);
        self.table.shared.load::<FindCount>(&mut pass.seat, word)
    }

    /// Stores another generation of a slot that nothing holds.
    pub fn renew(&self, pass: &mut Pass<S>, slot: u32, word: u64)
        requires own { IsLiveOf self.now pass.old }
        requires hold { (view pass.old).shares.order ≡ Holding }
        requires knows { KnowsAll (view pass.old) }
        requires within { slot < (view pass.old).draws.slots }
        requires uncounted { ((held_content (view pass.old)).count slot ≡ 0) × ((held_content (view pass.old)).pinned slot ≡ false) }
        requires none { count_of word ≡ 0 }
        ensures own { IsPassOf self.now pass.new × (in_hand pass.new ≡ in_hand pass.old) }
        ensures renewed { HasRenewed slot word (view pass.old) (view pass.new) }
    {
        let place = pass.sizes.count(slot);
        self.table
            .shared
            .store::<Renew>(&mut pass.seat, place, word);
    }

    /// Pins a slot that is in use.
    pub fn pin_slot(&self, pass: &mut Pass<S>, slot: u32)
        requires own { IsLiveOf self.now pass.old }
        requires hold { (view pass.old).shares.order ≡ Holding }
        requires knows { KnowsAll (view pass.old) }
        requires used { IsUsed (held_content (view pass.old)) slot }
        requires unpinned { (held_content (view pass.old)).pinned slot ≡ false }
        ensures own { IsPassOf self.now pass.new × (in_hand pass.new ≡ in_hand pass.old) }
        ensures pinned { HasPinned slot true (slot ∷ (view pass.old).counts.pins) (count_by (view pass.old).stored slot + 1) (view pass.old) (view pass.new) }
    {
        let word = pass.sizes.count(slot);
        self.table
            .shared
            .fetch_add::<PinSlot>(&mut pass.seat, word, 1);
    }

    /// Takes a pin away.
    pub fn unpin_slot(&self, pass: &mut Pass<S>, slot: u32)
        requires own { IsLiveOf self.now pass.old }
        requires hold { (view pass.old).shares.order ≡ Holding }
        requires knows { KnowsAll (view pass.old) }
        requires within { slot < (view pass.old).draws.slots }
        requires pinned { (held_content (view pass.old)).pinned slot ≡ true }
        ensures own { IsPassOf self.now pass.new × (in_hand pass.new ≡ in_hand pass.old) }
        ensures unpinned { HasPinned slot false (numbers_without slot (view pass.old).counts.pins) (count_by (view pass.old).stored slot - 1) (view pass.old) (view pass.new) }
    {
        let word = pass.sizes.count(slot);
        self.table
            .shared
            .fetch_sub::<UnpinSlot>(&mut pass.seat, word, 1);
    }
}
