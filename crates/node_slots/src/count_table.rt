//! The count words of a store's slots.

ghost use Rattle.std.specs.Prelude.{◌≡◌, ℕ, ◌+◌, ◌<◌, ◌≤◌, IfOk, length, max, replicate, slice_index, slice_set, vec_capacity};

use edge_bits::Memory;
use std::alloc::Global;
use std::marker::Model;

/// The count word of each of so many slots, which is 0 from the opening on until it is written.
#[derive(Drop)]
pub struct CountTable {
    // The words up to the last slot of which one was written. The room for the others is not written to.
    words: Vec<u64>,
    slots: usize,
}

impl Model for CountTable {
    ghost use Rattle.std.specs.Prelude.{ℕ, List, vec_capacity};
    ghost use Rattle.level_table.specs.Slotted.{padded};
    ghost use Rattle.node_slots.specs.Counts.{IsCountTable};

    ghost Value = { List ℕ };

    ghost view = { λ t. padded t.slots t.words.items };

    ghost invariant = { λ t. IsCountTable t.words.items t.slots (vec_capacity t.words) };
}

/// Adds zeros until there is a word for the slot.
fn extend(words: &mut Vec<u64>, slot: usize)
    requires { slot < vec_capacity words.old }
    ensures kept { length words.old.items ≤ length words.new.items }
    ensures reaches { slot < length words.new.items }
    ensures within { length words.new.items ≤ max (length words.old.items) (slot + 1) }
    ensures same { (s : ℕ) → slice_index words.new.items s ≡ slice_index words.old.items s }
    ensures room { vec_capacity words.new ≡ vec_capacity words.old }
{
    for _ in words.len()..slot + 1 {
        words.push_reserved(0);
    }
}

impl CountTable {
    /// So many slots, whose count words are 0.
    pub fn new(alloc: Global, slots: u32) -> Result<CountTable, Memory>
        ensures { IfOk result (λ t. t ≡ replicate slots 0) }
    {
        let slots = slots as usize;
        let words = Vec::with_capacity(alloc, slots)?;
        Ok(CountTable { words, slots })
    }

    /// The count word of a slot.
    pub fn word(&self, slot: u32) -> u64
        ensures { result ≡ slice_index self.now slot }
    {
        let slot = slot as usize;
        if slot < self.words.len() {
            self.words[slot]
        } else {
            0
        }
    }

    /// Writes the count word of a slot.
    pub fn write(&mut self, slot: u32, word: u64)
        requires { slot < length self.old }
        ensures { self.new ≡ slice_set self.old slot word }
    {
        let slot = slot as usize;
        extend(&mut self.words, slot);
        self.words[slot] = word;
    }
}
