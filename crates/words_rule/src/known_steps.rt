//! Steps whose ghost parameters follow from what they are passed.
ghost use Rattle.std.specs.Prelude.{List, ℕ, ◌≡◌, ◌<◌, ◌∷◌, [], true, false, None, Some, IfSome, IfNone};
ghost use Rattle.atomic_table.specs.Table.{rest};
ghost use Rattle.edge_bits.specs.declared.words.Word.{Word};
ghost use Rattle.node_slots.specs.Stores.{lent_room};
ghost use Rattle.step_store.specs.Knowing.{IsWanted, risen};
ghost use Rattle.words_rule.specs.declared.view.Share.TheVariants.{Held};
ghost use Rattle.words_rule.specs.Hands.{HasLevel};
ghost use Rattle.words_rule.specs.Kept.{whole_of};
ghost use Rattle.words_rule.specs.Known.{known_of, own_none, own_of, with_made};
ghost use Rattle.words_rule.specs.Layout.{heads};
ghost use Rattle.words_rule.specs.Loads.{IsSeatOf, LearntMemo, LoadedNode, StoredNode, TakenReads};
ghost use Rattle.words_rule.specs.Passes.{me, view, in_hand, IsLiveOf, IsPassOf};
ghost use Rattle.words_rule.specs.Plays.{HasLoaded, HasTaken};
ghost use Rattle.words_rule.specs.Remembered.{AreAnswers};
ghost use Rattle.words_rule.specs.Shapes.{shape_in};
ghost use Rattle.words_rule.specs.Steppers.{due_at, knows};

use crate::content::Content;
use crate::seat::{Guard, Pass};
use crate::told::{Beside, Level, Refused, Wants};
use node_store::Stack;
use step_store::Job;

/// Loads a head under the turn of this level.
pub(crate) fn load_head<S: Content, E: Level>(
    guard: &Guard<S>,
    pass: &mut Pass<S>,
    head: u32,
    level: u32,
) -> u64
    requires same { E.level ≡ level }
    requires own { IsLiveOf guard.now pass.old }
    requires share { (view pass.old).shares.op ≡ Held }
    requires has { HasLevel (view pass.old).hand level }
    requires within { head < heads (shape_in (view pass.old).draws) }
    ensures own { IsPassOf guard.now pass.new }
    ensures loaded { HasLoaded head level (me pass.old) result (me pass.new) }
{
    let _ = level;
    guard.load_head::<E>(pass, head)
}

/// Loads the word of a slot, with this scratch beside the seat.
pub(crate) fn load_node<S: Content, E: Beside>(
    guard: &Guard<S>,
    pass: &mut Pass<S>,
    scratch: &Option<Stack>,
    slot: u32,
) -> u64
    requires same { E.own ≡ own_of (view pass.old) (lent_room scratch.now) }
    requires own { IsLiveOf guard.now pass.old }
    requires share { (view pass.old).shares.op ≡ Held }
    requires within { slot < (view pass.old).draws.slots }
    requires few { (view pass.old).work.fulls < 18446744073709551616 }
    ensures own { IsPassOf guard.now pass.new × (in_hand pass.new ≡ in_hand pass.old) }
    ensures stands { IsSeatOf (view pass.old) (view pass.new) × ((view pass.new).hand ≡ (view pass.old).hand) × ((view pass.new).work ≡ (view pass.old).work) }
    ensures loaded { LoadedNode (knows (view pass.old) (lent_room scratch.now)) (known_of (view pass.new) (own_of (view pass.old) (lent_room scratch.now))) slot result }
{
    let _ = scratch;
    guard.load_node::<E>(pass, slot)
}

/// Gives the free list back without its first slot, which is taken for a word of these bits.
pub(crate) fn take_slot<S: Content, E: Wants>(
    guard: &Guard<S>,
    pass: &mut Pass<S>,
    scratch: &Option<Stack>,
    content: S,
    bits: u64,
)
    requires same { (E.own ≡ own_of (view pass.old) (lent_room scratch.now)) × (E.bits ≡ bits) }
    requires own { IsLiveOf guard.now pass.old }
    requires share { (view pass.old).shares.op ≡ Held }
    requires hand { in_hand pass.old ≡ (1, None) ∷ rest (in_hand pass.old) }
    requires roomy { (S.free_slots content).room ≡ (view pass.old).draws.slots }
    requires free { (slot : ℕ) × ((view pass.old).hand.free ≡ Some (slot ∷ (S.free_slots content).slots)) }
    requires calm { ((view pass.old).hand.taken ≡ None) × ((view pass.old).hand.loose ≡ None) }
    requires wanted { (word : Word) × IsWanted (knows (view pass.old) (lent_room scratch.now)) bits word }
    ensures own { IsPassOf guard.now pass.new }
    ensures taken { (slot : ℕ) (list : List ℕ) → (view pass.old).hand.free ≡ Some (slot ∷ list) → HasTaken bits slot (me pass.old) (me pass.new) }
{
    let _ = scratch;
    let _ = bits;
    guard.take_slot::<E>(pass, content);
}

/// Gives the free list back, empty, where this job was due.
pub(crate) fn give_empty<S: Content, E: Refused>(
    guard: &Guard<S>,
    pass: &mut Pass<S>,
    content: S,
    job: &Job,
)
    requires same { E.due ≡ Some (whole_of (shape_in (view pass.old).draws) (due_at (known_of (view pass.old) own_none).view job.now)) }
    requires own { IsLiveOf guard.now pass.old }
    requires hand { in_hand pass.old ≡ (1, None) ∷ rest (in_hand pass.old) }
    requires roomy { (S.free_slots content).room ≡ (view pass.old).draws.slots }
    requires empty { ((view pass.old).hand.free ≡ Some []) × ((S.free_slots content).slots ≡ []) }
    ensures own { IsPassOf guard.now pass.new × (in_hand pass.new ≡ rest (in_hand pass.old)) }
    ensures given { view pass.new ≡ record (view pass.old) { hand = record (view pass.old).hand { free = None }; work = record (view pass.old).work { fulls = risen (view pass.old).work.fulls; due = Some (whole_of (shape_in (view pass.old).draws) (due_at (known_of (view pass.old) own_none).view job.now)) } } }
{
    let _ = job;
    guard.give_empty::<E>(pass, content);
}

/// Stores the word that is due in the slot that was taken for it, with this scratch beside the seat.
pub(crate) fn store_node<S: Content, E: Beside>(
    guard: &Guard<S>,
    pass: &mut Pass<S>,
    scratch: &Option<Stack>,
    slot: u32,
    bits: u64,
)
    requires same { E.own ≡ own_of (view pass.old) (lent_room scratch.now) }
    requires own { IsLiveOf guard.now pass.old }
    requires share { (view pass.old).shares.op ≡ Held }
    requires taken { (knows (view pass.old) (lent_room scratch.now)).hand.taken ≡ Some (record { slot = slot; bits = bits }) }
    requires calm { (view pass.old).hand.loose ≡ None }
    requires within { slot < (view pass.old).draws.slots }
    requires reads { TakenReads (view pass.old) }
    requires few { (view pass.old).work.fulls < 18446744073709551616 }
    ensures own { IsPassOf guard.now pass.new × (in_hand pass.new ≡ in_hand pass.old) }
    ensures stands { IsSeatOf (view pass.old) (view pass.new) × ((view pass.new).work ≡ record (view pass.old).work { made = slot ∷ (view pass.old).work.made }) }
    ensures stored { StoredNode (knows (view pass.old) (lent_room scratch.now)) (known_of (view pass.new) (with_made (own_of (view pass.old) (lent_room scratch.now)) slot)) slot bits }
{
    let _ = scratch;
    guard.store_node::<E>(pass, slot, bits);
}

/// Takes the computed table, if it is at home, with this scratch beside the seat.
pub(crate) fn take_memo<S: Content, E: Beside>(
    guard: &Guard<S>,
    pass: &mut Pass<S>,
    scratch: &Option<Stack>,
) -> Option<S>
    requires same { E.own ≡ own_of (view pass.old) (lent_room scratch.now) }
    requires own { IsLiveOf guard.now pass.old }
    requires share { (view pass.old).shares.op ≡ Held }
    requires few { (view pass.old).work.fulls < 18446744073709551616 }
    ensures own { IsPassOf guard.now pass.new }
    ensures taken { IfSome result (λ x. LearntMemo (own_of (view pass.old) (lent_room scratch.now)) (S.memo x) (view pass.old) (view pass.new) × (in_hand pass.new ≡ (2, None) ∷ in_hand pass.old)) }
    ensures missed { IfNone result (me pass.new ≡ me pass.old) }
{
    let _ = scratch;
    guard.take_memo::<E>(pass)
}

/// Puts the computed table back, with this scratch beside the seat.
pub(crate) fn give_memo<S: Content, E: Beside>(
    guard: &Guard<S>,
    pass: &mut Pass<S>,
    scratch: &Option<Stack>,
    content: S,
)
    requires same { E.own ≡ own_of (view pass.old) (lent_room scratch.now) }
    requires own { IsLiveOf guard.now pass.old }
    requires share { (view pass.old).shares.op ≡ Held }
    requires hand { in_hand pass.old ≡ (2, None) ∷ rest (in_hand pass.old) }
    requires has { (view pass.old).hand.memo ≡ true }
    requires holds { AreAnswers (knows (view pass.old) (lent_room scratch.now)).view (S.memo content) }
    ensures own { IsPassOf guard.now pass.new × (in_hand pass.new ≡ rest (in_hand pass.old)) }
    ensures given { view pass.new ≡ record (view pass.old) { hand = record (view pass.old).hand { memo = false } } }
{
    let _ = scratch;
    guard.give_memo::<E>(pass, content);
}
