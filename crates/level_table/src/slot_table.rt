//! The words of a store's slots, each found by its word.

ghost use Rattle.std.specs.Prelude.{◌≡◌, ℕ, ◌+◌, ◌<◌, ◌≤◌, ◌^◌, length, replicate, slice_index, slice_set, IfOk, IfSome, IfNone};
ghost use Rattle.edge_bits.specs.Permanent.{zero_slot};
ghost use Rattle.level_table.specs.Chains.{IsChained, put};
ghost use Rattle.level_table.specs.Slotted.{bucket_in, bucket_of_word, AreSlots};

use crate::chains::{clear, link, place_of, unlink};
use edge_bits::{Memory, ZERO_SLOT, scatter};
use std::alloc::Global;
use std::marker::Model;

/// How many buckets there are before a slot is taken, where there are as many slots.
const FIRST_BUCKETS: usize = 1024;

/// No bucket's number has more than 32 bits.
const MOST_BUCKETS: usize = u32::MAX as usize;

/// The words of so many slots, with one unique table for all of them (Brace, Rudell and Bryant 1990): the key of a slot is its own word, so an entry is one link. All slots share the buckets, and no entry takes memory: there is
/// room for a bucket for each slot, and the buckets are doubled as slots are taken, so that those in use lie close together.
///
/// The word of a free slot is 0. Slots below `ZERO_SLOT` are told by their numbers, and no word is found there.
#[derive(Drop)]
pub struct SlotTable {
    // The words of the slots that were ever taken. The room for the others is not written to.
    words: Vec<u64>,
    // Of each of these slots the link to the next lower one in its bucket: 0, or one more than the slot.
    links: Vec<u32>,
    // Of each bucket the link to its greatest slot. There is room for as many as there are slots.
    heads: Vec<u32>,
    slots: usize,
}

impl Model for SlotTable {
    ghost use Rattle.std.specs.Prelude.{length, vec_capacity};
    ghost use Rattle.level_table.specs.Slotted.{Slotted, IsSlotTable, padded};

    ghost Value = { Slotted };

    ghost view = { λ t. record { words = padded t.slots t.words.items; taken = length t.words.items } };

    ghost invariant = { λ t. IsSlotTable t.words.items t.links.items t.heads.items t.slots (vec_capacity t.words) (vec_capacity t.links) };
}

/// The bucket of a word.
fn bucket_of(bits: u64, buckets: usize) -> usize
    requires some { 0 < buckets }
    requires few { buckets < 2 ^ 32 }
    ensures bucket { result ≡ bucket_of_word bits buckets }
    ensures within { result < buckets }
{
    scatter(bits, buckets)
}

/// The slot with the word, which is in the chain of the word's bucket if it is anywhere.
fn seek(words: &[u64], links: &[u32], heads: &[u32], bits: u64) -> Option<usize>
    requires slots { AreSlots words.now links.now heads.now }
    requires bits { 0 < bits }
    ensures within { IfSome result (λ s. s < length words.now) }
    ensures found { IfSome result (λ s. (zero_slot ≤ s) × (slice_index words.now s ≡ bits)) }
    ensures none { IfNone result ((s : ℕ) → zero_slot ≤ s → slice_index words.now s ≡ bits → ⊥) }
{
    let mut link = heads[bucket_of(bits, heads.len())];
    while let Some(slot) = place_of(link) {
        if words[slot] == bits {
            return Some(slot);
        }
        link = links[slot];
    }
    None
}

/// Writes a word into a free slot.
fn put_word(words: &mut [u64], links: &mut [u32], heads: &mut [u32], slot: usize, bits: u64)
    requires slots { AreSlots words.old links.old heads.old }
    requires within { slot < length words.old }
    requires free { slice_index words.old slot ≡ 0 }
    requires bits { 0 < bits }
    ensures slots { AreSlots words.new links.new heads.new }
    ensures words { words.new ≡ slice_set words.old slot bits }
{
    words[slot] = bits;
    if slot >= ZERO_SLOT as usize {
        let bucket = bucket_of(bits, heads.len());
        link(heads, links, bucket, slot);
    }
}

/// Puts a slot that is in no chain into that of its word, if it is found by it.
fn link_slot(words: &[u64], links: &mut [u32], heads: &mut [u32], slot: usize)
    requires within { slot < length words.now }
    requires as_long { length links.old ≡ length words.now }
    requires few { length words.now < 2 ^ 32 }
    requires some { 0 < length heads.old }
    requires few_buckets { length heads.old < 2 ^ 32 }
    requires chained { (at : ℕ → ℕ) × IsChained at heads.old links.old }
    ensures { (at : ℕ → ℕ) → IsChained at heads.old links.old → at slot ≡ length heads.old → IsChained (put at slot (bucket_in words.now (length heads.old) slot)) heads.new links.new }
{
    let bits = words[slot];
    if slot >= ZERO_SLOT as usize && bits != 0 {
        let bucket = bucket_of(bits, heads.len());
        link(heads, links, bucket, slot);
    }
}

/// Puts all slots that are found by their words into empty buckets.
fn link_all(words: &[u64], links: &mut [u32], heads: &mut [u32])
    requires empty { heads.old ≡ replicate (length heads.old) 0 }
    requires some { 0 < length heads.old }
    requires few_buckets { length heads.old < 2 ^ 32 }
    requires as_long { length links.old ≡ length words.now }
    requires few { length words.now < 2 ^ 32 }
    requires fall { (k : ℕ) → k < length links.old → slice_index links.old k ≤ k }
    ensures { AreSlots words.now links.new heads.new }
{
    for slot in 0..words.len() {
        link_slot(words, links, heads, slot);
    }
}

/// Doubles the buckets where there is one for each slot already, as far as there is room for them.
fn widen(words: &[u64], links: &mut [u32], heads: &mut Vec<u32>)
    requires { AreSlots words.now links.old heads.old.items }
    ensures { AreSlots words.now links.new heads.new.items }
{
    let most = heads.capacity().min(MOST_BUCKETS);
    let buckets = most.min(2 * heads.len());
    if heads.len() <= words.len() && heads.len() < buckets {
        clear(heads, buckets);
        link_all(words, links, heads);
    }
}

/// Frees a slot.
fn take_word(words: &mut [u64], links: &mut [u32], heads: &mut [u32], slot: usize)
    requires slots { AreSlots words.old links.old heads.old }
    requires within { slot < length words.old }
    ensures slots { AreSlots words.new links.new heads.new }
    ensures words { words.new ≡ slice_set words.old slot 0 }
{
    let bits = words[slot];
    if slot >= ZERO_SLOT as usize && bits != 0 {
        let bucket = bucket_of(bits, heads.len());
        unlink(heads, links, bucket, slot);
    }
    words[slot] = 0;
}

impl SlotTable {
    /// So many slots, all free, and at least one. It writes to the first buckets alone.
    pub fn new(alloc: Global, slots: u32) -> Result<SlotTable, Memory>
        requires { 0 < slots }
        ensures words { IfOk result (λ t. t.words ≡ replicate slots 0) }
        ensures taken { IfOk result (λ t. t.taken ≡ 0) }
    {
        let slots = slots as usize;
        let words = Vec::with_capacity(alloc, slots)?;
        let links = Vec::with_capacity(alloc, slots)?;
        let mut heads = Vec::with_capacity(alloc, slots)?;
        clear(&mut heads, slots.min(FIRST_BUCKETS));
        Ok(SlotTable {
            words,
            links,
            heads,
            slots,
        })
    }

    /// The number of slots, free or not.
    pub fn slots(&self) -> u32
        ensures { result ≡ length self.now.words }
    {
        self.slots as u32
    }

    /// The number of slots that were ever taken: those from it on are free.
    pub fn taken(&self) -> u32
        ensures taken { result ≡ self.now.taken }
        ensures within { result ≤ length self.now.words }
    {
        self.words.len() as u32
    }

    /// The word of a slot, 0 where it is free.
    pub fn word(&self, slot: u32) -> u64
        ensures { result ≡ slice_index self.now.words slot }
    {
        let slot = slot as usize;
        if slot < self.words.len() {
            self.words[slot]
        } else {
            0
        }
    }

    /// The words of the slots that were ever taken.
    pub fn words(&self) -> &[u64]
        ensures taken { length result.now ≡ self.now.taken }
        ensures words { (s : ℕ) → slice_index result.now s ≡ slice_index self.now.words s }
    {
        &self.words
    }

    /// A slot with this word, from `ZERO_SLOT` on. The word is not 0.
    pub fn find(&self, bits: u64) -> Option<u32>
        requires { 0 < bits }
        ensures within { IfSome result (λ s. s < self.now.taken) }
        ensures found { IfSome result (λ s. (zero_slot ≤ s) × (slice_index self.now.words s ≡ bits)) }
        ensures none { IfNone result ((s : ℕ) → zero_slot ≤ s → slice_index self.now.words s ≡ bits → ⊥) }
    {
        let slot = seek(&self.words, &self.links, &self.heads, bits)?;
        Some(slot as u32)
    }

    /// Writes a word into a slot that is free, and was taken before. The word is not 0.
    pub fn fill(&mut self, slot: u32, bits: u64)
        requires bits { 0 < bits }
        requires taken { slot < self.old.taken }
        requires free { slice_index self.old.words slot ≡ 0 }
        ensures words { self.new.words ≡ slice_set self.old.words slot bits }
        ensures taken { self.new.taken ≡ self.old.taken }
    {
        put_word(
            &mut self.words,
            &mut self.links,
            &mut self.heads,
            slot as usize,
            bits,
        );
    }

    /// Writes a word into the first slot that was never taken, and answers which it is. The word is not 0.
    pub fn append(&mut self, bits: u64) -> u32
        requires bits { 0 < bits }
        requires room { self.old.taken < length self.old.words }
        ensures words { self.new.words ≡ slice_set self.old.words self.old.taken bits }
        ensures taken { self.new.taken ≡ self.old.taken + 1 }
        ensures slot { result ≡ self.old.taken }
    {
        let slot = self.words.len() as u32;
        widen(&self.words, &mut self.links, &mut self.heads);
        self.words.push_reserved(0);
        self.links.push_reserved(0);
        self.fill(slot, bits);
        slot
    }

    /// Frees a slot that was taken before.
    pub fn erase(&mut self, slot: u32)
        requires { slot < self.old.taken }
        ensures words { self.new.words ≡ slice_set self.old.words slot 0 }
        ensures taken { self.new.taken ≡ self.old.taken }
    {
        take_word(
            &mut self.words,
            &mut self.links,
            &mut self.heads,
            slot as usize,
        );
    }

    /// Frees all slots, as if none had been taken.
    pub fn clear(&mut self)
        ensures words { self.new.words ≡ replicate (length self.old.words) 0 }
        ensures taken { self.new.taken ≡ 0 }
    {
        self.words.truncate(0);
        self.links.truncate(0);
        let buckets = self.heads.len();
        clear(&mut self.heads, buckets);
    }
}
