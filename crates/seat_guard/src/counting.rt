//! Steps on the count words, made on a pass, a share or a hold alike.
ghost use Rattle.std.specs.Prelude.{◌≡◌, ◌≢◌, ℕ, ◌<◌, ◌+◌, ◌⊎◌, true, length};
ghost use Rattle.edge_bits.specs.declared.limits.TheConstants.{MOST_ROWS};
ghost use mathlib.Core.Option.{some};
ghost use lib.ListN.{get_elem?};
ghost use Rattle.seat_guard.specs.declared.view.Held.{Held};
ghost use Rattle.seat_guard.specs.declared.view.Row.{Row};
ghost use Rattle.seat_guard.specs.declared.view.Hold.TheVariants.{Holding};
ghost use Rattle.seat_guard.specs.CountPlays.{MayRaise, Knows, NamesNone, found_above, found_zero};
ghost use Rattle.seat_guard.specs.Passes.{counts_of, known, shares, IsPassOf};
ghost use Rattle.seat_guard.specs.Recounts.{IsAt, OnlyCounts};
ghost use Rattle.seat_guard.specs.Tallies.{found_at, held_count, lowered_by, pinned_by, raised_by, times, unpinned_by};

use crate::content::Content;
use crate::count_plays::{CountDown, CountUp, LookAt, Pin, ReadGeneration, ReadSessions, Unpin};
use crate::layout::{COUNTS, SESSIONS};
use crate::seat::{Guard, Pass};
use crate::told::Raises;

/// The count of a word is below this, and its generation above.
const COUNT: u64 = 1 << 32;

impl<S: Content> Guard<S> {
    /// Counts a slot up, and answers its generation. It takes a row of the session's own that has the edge; or the turn, and a cell that
    /// names the slot, an operation share or the full hold.
    pub fn count_up<E: Raises>(&self, pass: &mut Pass<S>, slot: u32) -> u32
        requires at { IsAt self.now pass.old slot }
        requires edge { E.held.edge.index ≡ slot }
        requires may { MayRaise pass.old.seat.me.0 E.held }
        requires room { length (known pass.old).rows + length (counts_of pass.old).raised + length (counts_of pass.old).owed < MOST_ROWS }
        ensures own { OnlyCounts self.now pass.old pass.new }
        ensures raised { counts_of pass.new ≡ raised_by E.held result (counts_of pass.old) }
    {
        let found = self
            .table
            .shared
            .fetch_add::<CountUp<E>>(&mut pass.seat, COUNTS + slot as usize, 1);
        (found / COUNT) as u32
    }

    /// Counts a slot down that is owed.
    pub fn count_down(&self, pass: &mut Pass<S>, slot: u32)
        requires at { IsAt self.now pass.old slot }
        requires owed { 0 < held_count slot (counts_of pass.old).owed }
        ensures own { OnlyCounts self.now pass.old pass.new }
        ensures lowered { counts_of pass.new ≡ lowered_by slot (counts_of pass.old) }
    {
        self.table
            .shared
            .fetch_sub::<CountDown>(&mut pass.seat, COUNTS + slot as usize, 1);
    }

    /// How often a slot is counted, under the order hold. Where it is not, nothing that the
    /// seat knows of names it, and nobody else counts it while the hold lasts. Where it is,
    /// and the seat has not pinned it, it is the slot of an edge that some seat or cell has; who has the turn knows the edge.
    pub fn count_of(&self, pass: &mut Pass<S>, slot: u32) -> u32
        requires at { IsAt self.now pass.old slot }
        requires hold { (shares pass.old).order ≡ Holding }
        ensures own { OnlyCounts self.now pass.old pass.new }
        ensures none { result ≡ 0 → NamesNone slot pass.old.seat.me.0 × ((g : ℕ) × (counts_of pass.new ≡ found_zero slot g (counts_of pass.old))) }
        ensures pinned { result ≢ 0 → times slot (counts_of pass.old).pins ≢ 0 → (g : ℕ) × (counts_of pass.new ≡ found_at slot g (counts_of pass.old)) }
        ensures some { result ≢ 0 → times slot (counts_of pass.old).pins ≡ 0 → (g : ℕ) × (held : Held) × (held.edge.index ≡ slot) × ((known pass.old).holds ≡ true → Knows pass.old.seat.me.0 held) × (counts_of pass.new ≡ found_above slot g (known pass.old) held (counts_of pass.old)) }
    {
        let found = self
            .table
            .shared
            .load::<LookAt>(&mut pass.seat, COUNTS + slot as usize);
        (found % COUNT) as u32
    }

    /// Pins a slot, under the order hold.
    pub fn pin(&self, pass: &mut Pass<S>, slot: u32)
        requires at { IsAt self.now pass.old slot }
        requires hold { (shares pass.old).order ≡ Holding }
        requires once { times slot (counts_of pass.old).pins ≡ 0 }
        ensures own { OnlyCounts self.now pass.old pass.new }
        ensures pinned { counts_of pass.new ≡ pinned_by slot (counts_of pass.old) }
    {
        self.table
            .shared
            .fetch_add::<Pin>(&mut pass.seat, COUNTS + slot as usize, 1);
    }

    /// Takes a pin away, under the order hold.
    pub fn unpin(&self, pass: &mut Pass<S>, slot: u32)
        requires at { IsAt self.now pass.old slot }
        requires hold { (shares pass.old).order ≡ Holding }
        requires pinned { 0 < times slot (counts_of pass.old).pins }
        ensures own { OnlyCounts self.now pass.old pass.new }
        ensures unpinned { counts_of pass.new ≡ unpinned_by slot (counts_of pass.old) }
    {
        self.table
            .shared
            .fetch_sub::<Unpin>(&mut pass.seat, COUNTS + slot as usize, 1);
    }

    /// The generation of a slot: each row of the session that names the slot has it.
    pub fn generation(&self, pass: &mut Pass<S>, slot: u32) -> u32
        requires at { IsAt self.now pass.old slot }
        ensures own { OnlyCounts self.now pass.old pass.new × (counts_of pass.new ≡ counts_of pass.old) }
        ensures rows { (i : ℕ) (row : Row) → get_elem? (known pass.old).rows i ≡ some row → row.held.edge.index ≡ slot → result ≡ row.generation }
    {
        let word = self
            .table
            .shared
            .load::<ReadGeneration>(&mut pass.seat, COUNTS + slot as usize);
        (word / COUNT) as u32
    }

    /// The number of sessions that the table was made for.
    pub fn sessions(&self, pass: &mut Pass<S>) -> u64
        requires own { IsPassOf self.now pass.old }
        requires seated { ((known pass.old).live ≡ true) ⊎ ((known pass.old).closing ≡ true) }
        ensures own { OnlyCounts self.now pass.old pass.new × (counts_of pass.new ≡ counts_of pass.old) }
        ensures sessions { result ≡ (known pass.old).sessions }
    {
        self.table
            .shared
            .load::<ReadSessions>(&mut pass.seat, SESSIONS)
    }
}
