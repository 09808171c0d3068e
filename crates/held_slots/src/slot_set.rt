//! The three layers.

ghost use Rattle.std.specs.Prelude.{◌≡◌, ◌≢◌, ℕ, ◌+◌, ◌*◌, ◌/◌, ◌<◌, ◌≤◌, ◌^◌, IfOk, true, false};
ghost use Rattle.held_slots.specs.SlotSets.{has, IsNext};

use crate::layer::{is_set, next_behind, next_below, next_in_word, set, unset};
use edge_bits::Memory;
use std::alloc::Global;
use std::marker::Model;

/// A set of slots: a bit for each slot, one for each word of those that has some, and one for each word of these that has some. A member is put in, taken out and looked up, and the next one found, in constant steps.
#[derive(Drop)]
pub struct SlotSet {
    limit: u32,
    slots: Vec<u64>,
    words: Vec<u64>,
    blocks: Vec<u64>,
}

impl Model for SlotSet {
    ghost use Rattle.held_slots.specs.SlotSets.{AreLayers, Members};

    ghost Value = { Members };

    ghost view = { λ s. record { limit = s.limit; bits = s.slots.items } };

    ghost invariant = { λ s. AreLayers s.limit s.slots.items s.words.items s.blocks.items };
}

impl SlotSet {
    /// The empty set of slots below this limit.
    pub fn new(alloc: Global, limit: u32) -> Result<SlotSet, Memory>
        requires { limit < 2 ^ 23 }
        ensures limit { IfOk result (λ set. set.limit ≡ limit) }
        ensures none { IfOk result (λ set. (s : ℕ) → has set s ≡ false) }
    {
        let slots = limit as usize / 64 + 1;
        let words = slots / 64 + 1;
        let blocks = words / 64 + 1;
        Ok(SlotSet {
            limit,
            slots: vec![in alloc; 0u64; slots]?,
            words: vec![in alloc; 0u64; words]?,
            blocks: vec![in alloc; 0u64; blocks]?,
        })
    }

    /// Whether a slot is a member.
    pub fn contains(&self, slot: u32) -> bool
        ensures { result ≡ has self.now slot }
    {
        is_set(&self.slots, slot as usize)
    }

    /// Puts a slot in.
    pub fn insert(&mut self, slot: u32)
        requires { slot < self.old.limit }
        ensures here { has self.new slot ≡ true }
        ensures others { (s : ℕ) → s ≢ slot → has self.new s ≡ has self.old s }
        ensures limit { self.new.limit ≡ self.old.limit }
    {
        let slot = slot as usize;
        set(&mut self.slots, slot);
        set(&mut self.words, slot / 64);
        set(&mut self.blocks, slot / 64 / 64);
    }

    /// Takes a slot out.
    pub fn remove(&mut self, slot: u32)
        requires { slot < self.old.limit }
        ensures here { has self.new slot ≡ false }
        ensures others { (s : ℕ) → s ≢ slot → has self.new s ≡ has self.old s }
        ensures limit { self.new.limit ≡ self.old.limit }
    {
        let slot = slot as usize;
        if unset(&mut self.slots, slot) {
            return;
        }
        if unset(&mut self.words, slot / 64) {
            return;
        }
        let _ = unset(&mut self.blocks, slot / 64 / 64);
    }

    /// Takes all slots out, in time with their number.
    pub fn clear(&mut self)
        ensures none { (s : ℕ) → has self.new s ≡ false }
        ensures limit { self.new.limit ≡ self.old.limit }
    {
        let mut from = 0;
        while let Some(slot) = self.next(from) {
            self.remove(slot);
            from = slot + 1;
        }
    }

    /// The least member from this slot on, or none.
    #[inline(never)]
    pub fn next(&self, from: u32) -> Option<u32>
        ensures next { IsNext (has self.now) from result }
        ensures below { (s : ℕ) → has self.now s ≡ true → s < self.now.limit }
        ensures few { self.now.limit ≤ 2 ^ 24 }
    {
        let from = from as usize;
        let slot = match next_in_word(&self.slots, from) {
            Some(slot) => slot,
            None => next_behind(
                &self.slots,
                from,
                next_below(&self.words, &self.blocks, from / 64 + 1),
            )?,
        };
        Some(slot as u32)
    }
}
