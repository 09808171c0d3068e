//! Steps that are told by what is known of them, as a holder makes them, and the wait for the computed table.
ghost use Rattle.std.specs.Prelude.{ℕ, ◌≡◌, ◌<◌, ◌∷◌, true, None, Some};
ghost use Rattle.computed_cache.specs.Entries.{kept_at, places};
ghost use Rattle.words_rule.specs.declared.view.Hold.TheVariants.{Holding};
ghost use Rattle.words_rule.specs.Hands.{HasLevel};
ghost use Rattle.words_holder.specs.Holders.{IsSpareRoom};
ghost use Rattle.words_rule.specs.HeldContents.{KnowsAll, held_content};
ghost use Rattle.words_rule.specs.HolderPlays.{AreFreeSlots, HasLoadedWhole};
ghost use Rattle.words_rule.specs.Layout.{heads};
ghost use Rattle.words_rule.specs.Shapes.{shape_in};
ghost use Rattle.words_rule.specs.Passes.{me, view, in_hand, IsLiveOf, IsPassOf};

use crate::holder_shelf::HolderShelf;
use computed_cache::Memo;
use crossbeam_utils::Backoff;
use free_list::FreeList;
use hold_store::HolderRoom;
use std::sync::Wait;
use words_rule::content::Content;
use words_rule::seat::{Guard, Pass};
use words_rule::told::Level;

/// Loads a head under the turn of this level.
pub(crate) fn load_whole<S: Content, E: Level>(
    guard: &Guard<S>,
    pass: &mut Pass<S>,
    head: u32,
    level: u32,
) -> u64
    requires same { E.level ≡ level }
    requires own { IsLiveOf guard.now pass.old }
    requires hold { (view pass.old).shares.order ≡ Holding }
    requires knows { KnowsAll (view pass.old) }
    requires has { HasLevel (view pass.old).hand level }
    requires within { head < heads (shape_in (view pass.old).draws) }
    ensures own { IsPassOf guard.now pass.new }
    ensures loaded { HasLoadedWhole head level (me pass.old) result (me pass.new) }
{
    let _ = level;
    guard.load_whole::<E>(pass, head)
}

/// Waits for the computed table, and drops its answers.
pub(crate) fn await_memo<R: Wait, S: HolderShelf>(
    rt: &R,
    guard: &Guard<S>,
    pass: &mut Pass<S>,
) -> Memo
    requires own { IsLiveOf guard.now pass.old }
    ensures own { IsPassOf guard.now pass.new × (in_hand pass.new ≡ (2, None) ∷ in_hand pass.old) }
    ensures taken { view pass.new ≡ record (view pass.old) { hand = record (view pass.old).hand { memo = true } } }
    ensures blank { (0 < places result) × ((i : ℕ) → kept_at result i ≡ None) }
{
    let backoff = Backoff::new();
    for _ in rt.forever() {
        if let Some(content) = guard.claim_memo(pass) {
            let mut memo = content.into_memo();
            memo.clear();
            return memo;
        }
        backoff.snooze();
    }
    unreachable!()
}

/// Waits for the free list, and the room that lies with it.
pub(crate) fn await_list<R: Wait, S: HolderShelf>(
    rt: &R,
    guard: &Guard<S>,
    pass: &mut Pass<S>,
) -> (FreeList, HolderRoom, S::Frame)
    requires own { IsLiveOf guard.now pass.old }
    requires hold { (view pass.old).shares.order ≡ Holding }
    requires knows { KnowsAll (view pass.old) }
    requires calm { (view pass.old).hand.taken ≡ None }
    ensures own { IsPassOf guard.now pass.new × (in_hand pass.new ≡ (1, None) ∷ in_hand pass.old) }
    ensures taken { view pass.new ≡ record (view pass.old) { hand = record (view pass.old).hand { free = Some result.0.slots } } }
    ensures free { AreFreeSlots (held_content (view pass.old)) result.0.slots }
    ensures room { (result.0.room ≡ (view pass.old).draws.slots) × IsSpareRoom (view pass.old).draws.slots result.1 }
{
    let backoff = Backoff::new();
    for _ in rt.forever() {
        if let Some(content) = guard.claim_free(pass) {
            return content.into_list();
        }
        backoff.snooze();
    }
    unreachable!()
}
