//! Steps on the count words.
ghost use Rattle.std.specs.Prelude.{List, ◌≡◌, ◌<◌, ◌^◌, ◌∷◌, ℕ};
ghost use Rattle.handle_count.specs.CountWords.{count_of};
ghost use Rattle.words_rule.specs.declared.view.Held.{Held};
ghost use Rattle.words_rule.specs.declared.view.Hold.TheVariants.{Holding};
ghost use Rattle.words_rule.specs.CountLoads.{HasCounted};
ghost use Rattle.words_rule.specs.CountPlays.{MayRaise, others_of};
ghost use Rattle.words_rule.specs.OneSession.{count_by, counting_down, counting_up};
ghost use Rattle.words_rule.specs.Tallies.{lifted, size, tally_of, times};
ghost use Rattle.words_rule.specs.Passes.{view, in_hand, IsLiveOf, IsPassOf};

use crate::content::Content;
use crate::count_plays::{CountDown, CountUp, LoadCount, Pin, Unpin};
use crate::seat::{Guard, Pass};
use crate::told::Raises;

/// The count of a word is below this, and its generation above.
const COUNT: u64 = 1 << 32;

impl<S: Content> Guard<S> {
    /// Counts a slot up, and answers its generation. It takes a row of the session's own that has the edge; or an operation share, under
    /// which the seat knows what the edge denotes.
    pub fn count_up<E: Raises>(&self, pass: &mut Pass<S>, slot: u32) -> u32
        requires own { IsLiveOf self.now pass.old }
        requires within { slot < (view pass.old).draws.slots }
        requires edge { E.held.edge.index ≡ slot }
        requires room { size (tally_of (view pass.old)) < 2 ^ 25 }
        requires may { MayRaise (view pass.old) E.held }
        ensures own { IsPassOf self.now pass.new × (in_hand pass.new ≡ in_hand pass.old) }
        ensures raised { view pass.new ≡ record (view pass.old) { counts = lifted E.held result (view pass.old).counts; stored = counting_up slot (view pass.old).stored } }
    {
        let word = pass.sizes.count(slot);
        let found = self
            .table
            .shared
            .fetch_add::<CountUp<E>>(&mut pass.seat, word, 1);
        (found / COUNT) as u32
    }

    /// Counts down the slot that is owed first.
    pub fn count_down(&self, pass: &mut Pass<S>, slot: u32)
        requires own { IsLiveOf self.now pass.old }
        requires within { slot < (view pass.old).draws.slots }
        requires owed { (held : Held) × (rest : List Held) × ((view pass.old).counts.owed ≡ held ∷ rest) × (held.edge.index ≡ slot) }
        ensures own { IsPassOf self.now pass.new × (in_hand pass.new ≡ in_hand pass.old) }
        ensures lowered { view pass.new ≡ record (view pass.old) { counts = record (view pass.old).counts { owed = others_of (view pass.old).counts.owed }; stored = counting_down slot (view pass.old).stored } }
    {
        let word = pass.sizes.count(slot);
        self.table
            .shared
            .fetch_sub::<CountDown>(&mut pass.seat, word, 1);
    }

    /// Pins a slot, under the order hold.
    pub fn pin(&self, pass: &mut Pass<S>, slot: u32)
        requires own { IsLiveOf self.now pass.old }
        requires within { slot < (view pass.old).draws.slots }
        requires hold { (view pass.old).shares.order ≡ Holding }
        requires once { times slot (view pass.old).counts.pins ≡ 0 }
        ensures own { IsPassOf self.now pass.new × (in_hand pass.new ≡ in_hand pass.old) }
        ensures pinned { view pass.new ≡ record (view pass.old) { counts = record (view pass.old).counts { pins = slot ∷ (view pass.old).counts.pins }; stored = counting_up slot (view pass.old).stored } }
    {
        let word = pass.sizes.count(slot);
        self.table.shared.fetch_add::<Pin>(&mut pass.seat, word, 1);
    }

    /// Takes the newest pin away, under the order hold.
    pub fn unpin(&self, pass: &mut Pass<S>, slot: u32)
        requires own { IsLiveOf self.now pass.old }
        requires within { slot < (view pass.old).draws.slots }
        requires hold { (view pass.old).shares.order ≡ Holding }
        requires pinned { (rest : List ℕ) × ((view pass.old).counts.pins ≡ slot ∷ rest) }
        ensures own { IsPassOf self.now pass.new × (in_hand pass.new ≡ in_hand pass.old) }
        ensures unpinned { view pass.new ≡ record (view pass.old) { counts = record (view pass.old).counts { pins = others_of (view pass.old).counts.pins }; stored = counting_down slot (view pass.old).stored } }
    {
        let word = pass.sizes.count(slot);
        self.table
            .shared
            .fetch_sub::<Unpin>(&mut pass.seat, word, 1);
    }

    /// The count of a slot, under the order hold. Where it is 0 nothing that the seat has names the slot, and it stays so but for what
    /// the seat itself does. Where it is not, and the seat has not pinned the slot, what the slot denotes is noted.
    pub fn load_count(&self, pass: &mut Pass<S>, slot: u32) -> u32
        requires own { IsLiveOf self.now pass.old }
        requires within { slot < (view pass.old).draws.slots }
        requires hold { (view pass.old).shares.order ≡ Holding }
        ensures own { IsPassOf self.now pass.new × (in_hand pass.new ≡ in_hand pass.old) }
        ensures counted { HasCounted slot result (view pass.old) (view pass.new) }
        ensures one { (view pass.old).draws.sessions ≡ 1 → result ≡ count_of (count_by (view pass.old).stored slot) }
    {
        let word = pass.sizes.count(slot);
        let found = self.table.shared.load::<LoadCount>(&mut pass.seat, word);
        (found % COUNT) as u32
    }
}
