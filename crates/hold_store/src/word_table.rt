//! The words of the slots that were ever taken.

ghost use Rattle.std.specs.Prelude.{◌≡◌, ℕ, ◌+◌, ◌<◌, ◌≤◌, IfOk, length, max, replicate, slice_index, slice_set, vec_capacity};

use edge_bits::Memory;
use std::alloc::Global;
use std::marker::Model;

/// The word of each of so many slots, which is 0 until it is written.
#[derive(Drop)]
pub struct WordTable {
    // The words up to the last slot of which one was written. The room for the others is not written to.
    words: Vec<u64>,
    slots: usize,
}

impl Model for WordTable {
    ghost use Rattle.std.specs.Prelude.{ℕ, List, vec_capacity};
    ghost use Rattle.level_table.specs.Slotted.{padded};
    ghost use Rattle.hold_store.specs.Noted.{IsWordTable};

    ghost Value = { List ℕ };

    ghost view = { λ t. padded t.slots t.words.items };

    ghost invariant = { λ t. IsWordTable t.words.items t.slots (vec_capacity t.words) };
}

/// Adds zeros until there is a word for the slot.
fn extend(words: &mut Vec<u64>, slot: usize)
    requires { slot < vec_capacity words.old }
    ensures kept { length words.old.items ≤ length words.new.items }
    ensures reaches { slot < length words.new.items }
    ensures within { length words.new.items ≤ max (length words.old.items) (slot + 1) }
    ensures same { (s : ℕ) → slice_index words.new.items s ≡ slice_index words.old.items s }
    ensures room { vec_capacity words.new ≡ vec_capacity words.old }
{
    for _ in words.len()..slot + 1 {
        words.push_reserved(0);
    }
}

impl WordTable {
    /// So many slots, whose words are 0.
    pub fn new(alloc: Global, slots: u32) -> Result<WordTable, Memory>
        ensures { IfOk result (λ t. t ≡ replicate slots 0) }
    {
        let slots = slots as usize;
        let words = Vec::with_capacity(alloc, slots)?;
        Ok(WordTable { words, slots })
    }

    /// The word of a slot.
    pub fn word(&self, slot: u32) -> u64
        ensures { result ≡ slice_index self.now slot }
    {
        let slot = slot as usize;
        if slot < self.words.len() {
            self.words[slot]
        } else {
            0
        }
    }

    /// The words of all slots up to the last of which one was written.
    pub fn words(&self) -> &[u64]
        ensures within { length result.now ≤ length self.now }
        ensures words { (s : ℕ) → slice_index result.now s ≡ slice_index self.now s }
    {
        &self.words
    }

    /// Writes the word of a slot.
    pub fn write(&mut self, slot: u32, word: u64)
        requires { slot < length self.old }
        ensures { self.new ≡ slice_set self.old slot word }
    {
        let slot = slot as usize;
        extend(&mut self.words, slot);
        self.words[slot] = word;
    }

    /// Makes all words 0.
    pub fn clear(&mut self)
        ensures { self.new ≡ replicate (length self.old) 0 }
    {
        self.words.clear();
    }
}
