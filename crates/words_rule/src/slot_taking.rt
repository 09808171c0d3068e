//! The free list: it is taken, and goes back without its first slot, or empty.
ghost use Rattle.std.specs.Prelude.{List, ℕ, ◌≡◌, ◌≢◌, ◌<◌, ◌∷◌, [], true, false, Some, None, IfSome, IfNone};
ghost use Rattle.atomic_table.specs.Table.{rest};
ghost use Rattle.edge_bits.specs.declared.words.Word.{Word};
ghost use Rattle.step_store.specs.Knowing.{IsWanted, risen};
ghost use Rattle.words_rule.specs.declared.view.Share.TheVariants as shares;
ghost use Rattle.words_rule.specs.Known.{known_of};
ghost use Rattle.words_rule.specs.Plays.{HasTaken};
ghost use Rattle.words_rule.specs.Passes.{me, view, in_hand, IsLiveOf, IsPassOf};

use crate::content::Content;
use crate::layout::{FREE, FREE_SLOT};
use crate::plays::{GiveEmpty, TakeFree, TakeSlot};
use crate::seat::{Guard, Pass};
use crate::told::{Refused, Wants};

impl<S: Content> Guard<S> {
    /// Takes the free list, if it is at home.
    pub fn take_free(&self, pass: &mut Pass<S>) -> Option<S>
        requires own { IsLiveOf self.now pass.old }
        ensures own { IsPassOf self.now pass.new }
        ensures taken { IfSome result (λ x. (view pass.new ≡ record (view pass.old) { hand = record (view pass.old).hand { free = Some (S.free_slots x).slots } }) × (in_hand pass.new ≡ (1, None) ∷ in_hand pass.old) × ((S.free_slots x).room ≡ (view pass.old).draws.slots)) }
        ensures missed { IfNone result (me pass.new ≡ me pass.old) }
    {
        let mine = u64::from(pass.number) + 1;
        let found = self
            .table
            .shared
            .compare_exchange::<TakeFree>(&mut pass.seat, FREE, 0, mine);
        if found == 0 {
            self.table.shared.exchange(&mut pass.seat, FREE_SLOT, None)
        } else {
            None
        }
    }

    /// Gives the free list back without its first slot, which is taken for a word that is wanted.
    pub fn take_slot<E: Wants>(&self, pass: &mut Pass<S>, content: S)
        requires own { IsLiveOf self.now pass.old }
        requires share { (view pass.old).shares.op ≡ shares.Held }
        requires hand { in_hand pass.old ≡ (1, None) ∷ rest (in_hand pass.old) }
        requires free { (slot : ℕ) × ((view pass.old).hand.free ≡ Some (slot ∷ (S.free_slots content).slots)) }
        requires roomy { (S.free_slots content).room ≡ (view pass.old).draws.slots }
        requires calm { ((view pass.old).hand.taken ≡ None) × ((view pass.old).hand.loose ≡ None) }
        requires bits { E.bits < 18446744073709551616 }
        requires wanted { (word : Word) × IsWanted (known_of (view pass.old) E.own) E.bits word }
        ensures own { IsPassOf self.now pass.new }
        ensures taken { (slot : ℕ) (list : List ℕ) → (view pass.old).hand.free ≡ Some (slot ∷ list) → HasTaken E.bits slot (me pass.old) (me pass.new) }
    {
        match self
            .table
            .shared
            .exchange(&mut pass.seat, FREE_SLOT, Some(content))
        {
            None => {}
            Some(_) => unreachable!(),
        }
        self.table
            .shared
            .store::<TakeSlot<E>>(&mut pass.seat, FREE, 0);
    }

    /// Gives the free list back, empty, and notes what was due.
    pub fn give_empty<E: Refused>(&self, pass: &mut Pass<S>, content: S)
        requires own { IsLiveOf self.now pass.old }
        requires hand { in_hand pass.old ≡ (1, None) ∷ rest (in_hand pass.old) }
        requires roomy { (S.free_slots content).room ≡ (view pass.old).draws.slots }
        requires empty { ((view pass.old).hand.free ≡ Some []) × ((S.free_slots content).slots ≡ []) }
        ensures own { IsPassOf self.now pass.new × (in_hand pass.new ≡ rest (in_hand pass.old)) }
        ensures given { view pass.new ≡ record (view pass.old) { hand = record (view pass.old).hand { free = None }; work = record (view pass.old).work { fulls = risen (view pass.old).work.fulls; due = E.due } } }
    {
        match self
            .table
            .shared
            .exchange(&mut pass.seat, FREE_SLOT, Some(content))
        {
            None => {}
            Some(_) => unreachable!(),
        }
        self.table
            .shared
            .store::<GiveEmpty<E>>(&mut pass.seat, FREE, 0);
    }
}
