//! The table of the leaves.

ghost use Rattle.std.specs.Prelude.{◌≡◌, ℤ, ◌+◌, ◌-◌, ◌<◌, ◌≤◌, ◌^◌, [], ◌∷◌, ◌++◌, length, max, slice_index_or, IfOk, OnOk, OnErr, IsOk, Some, None, MatchOption, ◌↔◌, ◌⊎◌, IsNone};
ghost use Rattle.level_table.specs.Leaves.{hash_of_value};

use crate::chains::Chains;
use edge_bits::Memory;
use std::alloc::Global;
use std::marker::Model;

/// A leaf's value and its slot.
#[derive(Debug, Clone, Copy, PartialEq, Eq)]
pub struct LeafEntry {
    /// The leaf's value.
    pub value: i64,
    /// The leaf's slot.
    pub slot: u32,
}

/// The unique table of the leaves (Brace, Rudell and Bryant 1990): a finite map from a leaf's value to its slot.
#[derive(Drop)]
pub struct LeafTable {
    entries: Vec<LeafEntry>,
    chains: Chains,
    spare: usize,
}

impl Model for LeafTable {
    ghost use Rattle.std.specs.Prelude.{vec_capacity};
    ghost use Rattle.level_table.specs.Leaves.{Leaves, IsLeafTable};

    ghost Value = { Leaves };

    ghost view = { λ t. record { entries = t.entries.items; spare = t.spare } };

    ghost invariant = { λ t. IsLeafTable t.entries.items (vec_capacity t.entries) t.chains t.spare };
}

/// The hash of a value.
fn mix(value: i64) -> u32
    ensures { result ≡ hash_of_value value }
{
    let product = value.cast_unsigned().wrapping_mul(0x9e37_79b9_7f4a_7c15);
    (product >> 32) as u32
}

impl LeafTable {
    ghost use Rattle.level_table.specs.declared.leaves.LeafEntry.{LeafEntry};
    ghost use Rattle.level_table.specs.Leaves.{IsOfValue, IsAbsentValue, IsWithoutValue, AreApartValues, slot_at_value};

    /// No entries, and no room for any.
    pub fn new(alloc: Global) -> Result<LeafTable, Memory>
        ensures { IfOk result (λ t. t ≡ record { entries = []; spare = 0 }) }
    {
        let chains = Chains::new(alloc)?;
        Ok(LeafTable {
            entries: Vec::new(alloc),
            chains,
            spare: 0,
        })
    }

    /// Makes room for so many more entries. It writes to none of it, so that room that isn't used costs no memory.
    pub fn reserve(&mut self, more: u32) -> Result<(), Memory>
        ensures ok { OnOk result (self.new ≡ record self.old { spare = max self.old.spare more }) }
        ensures err { OnErr result (self.new ≡ self.old) }
        ensures enough { more ≤ self.old.spare → IsOk result }
    {
        let wanted = more as usize;
        if wanted > self.spare {
            self.entries.reserve(wanted)?;
            self.chains.reserve(more)?;
            self.spare = wanted;
        }
        Ok(())
    }

    /// The place of the entry of a value.
    fn place_of(&self, value: i64) -> Option<usize>
        ensures { MatchOption result (IsAbsentValue self.now.entries value) (λ k. (k < length self.now.entries) × ((d : LeafEntry) → IsOfValue value (slice_index_or self.now.entries k d))) }
    {
        let mut candidate = self.chains.last(mix(value));
        while let Some(place) = candidate {
            if self.entries[place].value == value {
                return Some(place);
            }
            candidate = self.chains.previous(place);
        }
        None
    }

    /// The slot at a value.
    pub fn find_value(&self, value: i64) -> Option<u32>
        ensures slot { result ≡ slot_at_value self.now.entries value }
        ensures none { IsNone result ↔ IsAbsentValue self.now.entries value }
    {
        let place = self.place_of(value)?;
        Some(self.entries[place].slot)
    }

    /// Adds a value that is absent, with its slot. There is room for it.
    pub fn insert(&mut self, value: i64, slot: u32)
        requires absent { IsAbsentValue self.old.entries value }
        requires room { 1 ≤ self.old.spare }
        requires few { length self.old.entries < 2 ^ 32 - 1 }
        ensures entries { self.new.entries ≡ self.old.entries ++ record { value = value; slot = slot } ∷ [] }
        ensures spare { self.new.spare + 1 ≡ self.old.spare }
        ensures here { slot_at_value self.new.entries value ≡ Some slot }
        ensures others { (v : ℤ) → (v ≡ value → ⊥) → slot_at_value self.new.entries v ≡ slot_at_value self.old.entries v }
    {
        self.chains.push(mix(value));
        self.entries.push_reserved(LeafEntry { value, slot });
        self.spare -= 1;
    }

    /// Removes a value with its slot, if it is there. The last entry comes to stand in its place.
    pub fn remove(&mut self, value: i64)
        ensures removed { (IsAbsentValue self.old.entries value × (self.new ≡ self.old)) ⊎ IsWithoutValue self.old value self.new }
        ensures absent { IsAbsentValue self.new.entries value }
        ensures others { (v : ℤ) → (v ≡ value → ⊥) → slot_at_value self.new.entries v ≡ slot_at_value self.old.entries v }
    {
        if let Some(place) = self.place_of(value) {
            self.chains.swap_remove(place);
            self.entries.swap_remove(place);
            self.spare += 1;
        }
    }

    /// Removes all entries. The room stays.
    pub fn clear(&mut self)
        ensures { self.new ≡ record { entries = []; spare = self.old.spare + length self.old.entries } }
    {
        self.spare += self.entries.len();
        self.entries.truncate(0);
        self.chains.clear();
    }

    /// The number of entries.
    pub fn len(&self) -> u32
        ensures length { result ≡ length self.now.entries }
        ensures apart { AreApartValues self.now.entries }
    {
        self.entries.len() as u32
    }

    /// The value of an entry.
    pub fn value_at(&self, i: u32) -> i64
        requires { i < length self.now.entries }
        ensures value { (d : LeafEntry) → IsOfValue result (slice_index_or self.now.entries i d) }
        ensures apart { AreApartValues self.now.entries }
    {
        self.entries[i as usize].value
    }
}
