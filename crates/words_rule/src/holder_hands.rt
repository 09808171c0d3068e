//! The holder of the order has the free list and the computed table in hand.
ghost use Rattle.std.specs.Prelude.{ℕ, ◌≡◌, ◌<◌, ◌∷◌, true, false, Some, None, IfSome, IfNone};
ghost use Rattle.atomic_table.specs.Table.{rest};
ghost use Rattle.computed_cache.specs.Entries.{kept_at, places};
ghost use Rattle.words_rule.specs.declared.view.Hold.TheVariants.{Holding};
ghost use Rattle.words_rule.specs.HeldContents.{KnowsAll, held_content};
ghost use Rattle.words_rule.specs.HolderPlays.{AreFreeSlots};
ghost use Rattle.words_rule.specs.Passes.{me, view, in_hand, IsLiveOf, IsPassOf};

use crate::content::Content;
use crate::holder_plays::{ClaimFree, ClaimMemo, ReturnFree, ReturnMemo};
use crate::layout::{FREE, FREE_SLOT, MEMO, MEMO_SLOT};
use crate::seat::{Guard, Pass};

impl<S: Content> Guard<S> {
    /// Takes the free list, if it is at home, with all slots that are free.
    pub fn claim_free(&self, pass: &mut Pass<S>) -> Option<S>
        requires own { IsLiveOf self.now pass.old }
        requires hold { (view pass.old).shares.order ≡ Holding }
        requires knows { KnowsAll (view pass.old) }
        requires calm { (view pass.old).hand.taken ≡ None }
        ensures own { IsPassOf self.now pass.new }
        ensures taken { IfSome result (λ x. (view pass.new ≡ record (view pass.old) { hand = record (view pass.old).hand { free = Some (S.free_slots x).slots } }) × (in_hand pass.new ≡ (1, None) ∷ in_hand pass.old) × AreFreeSlots (held_content (view pass.old)) (S.free_slots x).slots × ((S.free_slots x).room ≡ (view pass.old).draws.slots)) }
        ensures missed { IfNone result (me pass.new ≡ me pass.old) }
    {
        let mine = u64::from(pass.number) + 1;
        let found = self
            .table
            .shared
            .compare_exchange::<ClaimFree>(&mut pass.seat, FREE, 0, mine);
        if found == 0 {
            self.table.shared.exchange(&mut pass.seat, FREE_SLOT, None)
        } else {
            None
        }
    }

    /// Gives the free list back, with the slots that the seat knows.
    pub fn return_free(&self, pass: &mut Pass<S>, content: S)
        requires own { IsLiveOf self.now pass.old }
        requires hand { in_hand pass.old ≡ (1, None) ∷ rest (in_hand pass.old) }
        requires free { (view pass.old).hand.free ≡ Some (S.free_slots content).slots }
        requires roomy { (S.free_slots content).room ≡ (view pass.old).draws.slots }
        ensures own { IsPassOf self.now pass.new × (in_hand pass.new ≡ rest (in_hand pass.old)) }
        ensures given { view pass.new ≡ record (view pass.old) { hand = record (view pass.old).hand { free = None } } }
    {
        match self
            .table
            .shared
            .exchange(&mut pass.seat, FREE_SLOT, Some(content))
        {
            None => {}
            Some(_) => unreachable!(),
        }
        self.table
            .shared
            .store::<ReturnFree>(&mut pass.seat, FREE, 0);
    }

    /// Takes the computed table, if it is at home.
    pub fn claim_memo(&self, pass: &mut Pass<S>) -> Option<S>
        requires own { IsLiveOf self.now pass.old }
        ensures own { IsPassOf self.now pass.new }
        ensures taken { IfSome result (λ x. (view pass.new ≡ record (view pass.old) { hand = record (view pass.old).hand { memo = true } }) × (in_hand pass.new ≡ (2, None) ∷ in_hand pass.old) × (0 < places (S.memo x))) }
        ensures missed { IfNone result (me pass.new ≡ me pass.old) }
    {
        let mine = u64::from(pass.number) + 1;
        let found = self
            .table
            .shared
            .compare_exchange::<ClaimMemo>(&mut pass.seat, MEMO, 0, mine);
        if found == 0 {
            self.table.shared.exchange(&mut pass.seat, MEMO_SLOT, None)
        } else {
            None
        }
    }

    /// Gives the computed table back, without answers.
    pub fn return_memo(&self, pass: &mut Pass<S>, content: S)
        requires own { IsLiveOf self.now pass.old }
        requires hand { in_hand pass.old ≡ (2, None) ∷ rest (in_hand pass.old) }
        requires has { (view pass.old).hand.memo ≡ true }
        requires blank { (0 < places (S.memo content)) × ((i : ℕ) → kept_at (S.memo content) i ≡ None) }
        ensures own { IsPassOf self.now pass.new × (in_hand pass.new ≡ rest (in_hand pass.old)) }
        ensures given { view pass.new ≡ record (view pass.old) { hand = record (view pass.old).hand { memo = false } } }
    {
        match self
            .table
            .shared
            .exchange(&mut pass.seat, MEMO_SLOT, Some(content))
        {
            None => {}
            Some(_) => unreachable!(),
        }
        self.table
            .shared
            .store::<ReturnMemo>(&mut pass.seat, MEMO, 0);
    }
}
