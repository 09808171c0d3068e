//! The table of a variable.

ghost use Rattle.std.specs.Prelude.{◌≡◌, ℕ, ◌+◌, ◌-◌, ◌<◌, ◌≤◌, ◌^◌, [], ◌∷◌, ◌++◌, length, max, slice_index_or, IfOk, OnOk, OnErr, IsOk, Some, None, MatchOption, ◌↔◌, ◌⊎◌, IsNone};
ghost use Rattle.level_table.specs.Tables.{hash_of};

use crate::chains::Chains;
use edge_bits::{Edge, Memory};
use std::alloc::Global;
use std::marker::Model;

/// A pair of children and the slot of the node that has them.
#[derive(Debug, Clone, Copy, PartialEq, Eq)]
pub struct Entry {
    /// The slot of the then child. A then arc is never complemented.
    pub hi: u32,
    /// The else arc.
    pub lo: Edge,
    /// The node's slot.
    pub slot: u32,
}

/// The unique table of one variable (Brace, Rudell and Bryant 1990): a finite map from the pair of a node's children to its slot.
#[derive(Drop)]
pub struct LevelTable {
    entries: Vec<Entry>,
    chains: Chains,
    spare: usize,
}

impl Model for LevelTable {
    ghost use Rattle.std.specs.Prelude.{vec_capacity};
    ghost use Rattle.level_table.specs.Tables.{Table, IsTable};

    ghost Value = { Table };

    ghost view = { λ t. record { entries = t.entries.items; spare = t.spare } };

    ghost invariant = { λ t. IsTable t.entries.items (vec_capacity t.entries) t.chains t.spare };
}

/// The hash of a pair.
fn mix(hi: u32, lo: Edge) -> u32
    ensures { result ≡ hash_of hi lo }
{
    let low = lo.word() as u64;
    let sum = (hi as u64)
        .wrapping_mul(0x9e37_79b9_7f4a_7c15)
        .wrapping_add(low.wrapping_mul(0xc2b2_ae3d_27d4_eb4f));
    (sum >> 32) as u32
}

impl LevelTable {
    ghost use Rattle.edge_bits.specs.declared.edges.Edge.{Edge};
    ghost use Rattle.level_table.specs.declared.table.Entry.{Entry};
    ghost use Rattle.level_table.specs.Tables.{IsOf, IsAbsent, IsWithout, AreApart, slot_at};

    /// No entries, and no room for any.
    pub fn new(alloc: Global) -> Result<LevelTable, Memory>
        ensures { IfOk result (λ t. t ≡ record { entries = []; spare = 0 }) }
    {
        let chains = Chains::new(alloc)?;
        Ok(LevelTable {
            entries: Vec::new(alloc),
            chains,
            spare: 0,
        })
    }

    /// Makes room for so many more entries. It writes to none of it, so that room that isn't used costs no memory.
    pub fn reserve(&mut self, more: u32) -> Result<(), Memory>
        ensures ok { OnOk result (self.new ≡ record self.old { spare = max self.old.spare more }) }
        ensures err { OnErr result (self.new ≡ self.old) }
        ensures enough { more ≤ self.old.spare → IsOk result }
    {
        let wanted = more as usize;
        if wanted > self.spare {
            self.entries.reserve(wanted)?;
            self.chains.reserve(more)?;
            self.spare = wanted;
        }
        Ok(())
    }

    /// The place of the entry of a pair.
    fn place_of(&self, hi: u32, lo: Edge) -> Option<usize>
        ensures { MatchOption result (IsAbsent self.now.entries hi lo) (λ k. (k < length self.now.entries) × ((d : Entry) → IsOf hi lo (slice_index_or self.now.entries k d))) }
    {
        let mut candidate = self.chains.last(mix(hi, lo));
        while let Some(place) = candidate {
            let entry = self.entries[place];
            if entry.hi == hi && entry.lo == lo {
                return Some(place);
            }
            candidate = self.chains.previous(place);
        }
        None
    }

    /// The slot at a pair.
    pub fn find(&self, hi: u32, lo: Edge) -> Option<u32>
        ensures slot { result ≡ slot_at self.now.entries hi lo }
        ensures none { IsNone result ↔ IsAbsent self.now.entries hi lo }
    {
        let place = self.place_of(hi, lo)?;
        Some(self.entries[place].slot)
    }

    /// Adds a pair that is absent, with its slot. There is room for it.
    pub fn insert(&mut self, hi: u32, lo: Edge, slot: u32)
        requires absent { IsAbsent self.old.entries hi lo }
        requires room { 1 ≤ self.old.spare }
        requires few { length self.old.entries < 2 ^ 32 - 1 }
        ensures entries { self.new.entries ≡ self.old.entries ++ record { hi = hi; lo = lo; slot = slot } ∷ [] }
        ensures spare { self.new.spare + 1 ≡ self.old.spare }
        ensures here { slot_at self.new.entries hi lo ≡ Some slot }
        ensures others { (h : ℕ) (l : Edge) → (h ≡ hi → l ≡ lo → ⊥) → slot_at self.new.entries h l ≡ slot_at self.old.entries h l }
    {
        self.chains.push(mix(hi, lo));
        self.entries.push_reserved(Entry { hi, lo, slot });
        self.spare -= 1;
    }

    /// Removes a pair with its slot, if it is there. The last entry comes to stand in its place.
    pub fn remove(&mut self, hi: u32, lo: Edge)
        ensures removed { (IsAbsent self.old.entries hi lo × (self.new ≡ self.old)) ⊎ IsWithout self.old hi lo self.new }
        ensures absent { IsAbsent self.new.entries hi lo }
        ensures others { (h : ℕ) (l : Edge) → (h ≡ hi → l ≡ lo → ⊥) → slot_at self.new.entries h l ≡ slot_at self.old.entries h l }
    {
        if let Some(place) = self.place_of(hi, lo) {
            self.chains.swap_remove(place);
            self.entries.swap_remove(place);
            self.spare += 1;
        }
    }

    /// Removes all entries. The room stays.
    pub fn clear(&mut self)
        ensures { self.new ≡ record { entries = []; spare = self.old.spare + length self.old.entries } }
    {
        self.spare += self.entries.len();
        self.entries.truncate(0);
        self.chains.clear();
    }

    /// The number of entries.
    pub fn len(&self) -> u32
        ensures length { result ≡ length self.now.entries }
        ensures apart { AreApart self.now.entries }
    {
        self.entries.len() as u32
    }

    /// The pair of an entry.
    pub fn pair_at(&self, i: u32) -> (u32, Edge)
        requires { i < length self.now.entries }
        ensures pair { (d : Entry) → IsOf result.0 result.1 (slice_index_or self.now.entries i d) }
        ensures apart { AreApart self.now.entries }
    {
        let entry = self.entries[i as usize];
        (entry.hi, entry.lo)
    }
}
