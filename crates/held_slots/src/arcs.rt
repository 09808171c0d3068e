//! How many arcs lead to each slot.

ghost use Rattle.std.specs.Prelude.{◌≡◌, ℕ, ◌+◌, ◌<◌, ◌≤◌, ◌^◌, ◌==◌, if◌then◌else◌, IfOk, List as ListOf, length, max, slice_index, slice_set, vec_capacity, true, false};
ghost use Rattle.held_slots.specs.Arcs.{AreFirst, IsChange, IsNamedIn, IsOf, arcs_in, arcs_to};

use crate::note::lengthen;
use edge_bits::{Memory, Word, unpack};
use std::alloc::Global;
use std::marker::Model;

/// How many arcs lead to each of so many slots, as the reference counts of CUDD have them for nodes: 32 bits for each. They are counted once, and kept from then on.
#[derive(Drop)]
pub struct ArcCounts {
    // The counts up to the last slot of which one was written. The room for the others is not written to.
    counts: Vec<u32>,
    slots: usize,
    known: bool,
}

impl Model for ArcCounts {
    ghost use Rattle.std.specs.Prelude.{vec_capacity};
    ghost use Rattle.held_slots.specs.Arcs.{Arcs, AreRoomy};

    ghost Value = { Arcs };

    ghost view = { λ a. record { slots = a.slots; known = a.known; counts = a.counts.items } };

    ghost invariant = { λ a. AreRoomy a.counts.items a.slots (vec_capacity a.counts) };
}

/// One arc more leads to a slot. One that is beyond the slots is passed over.
fn add_arc(counts: &mut Vec<u32>, slots: usize, slot: u32)
    requires room { slots ≤ vec_capacity counts.old }
    requires few { slice_index counts.old.items slot + 1 < 2 ^ 32 }
    requires within { length counts.old.items ≤ slots }
    ensures counted { (s : ℕ) → s < slots → slice_index counts.new.items s ≡ slice_index counts.old.items s + (if slot == s then 1 else 0) }
    ensures within { length counts.new.items ≤ slots }
    ensures room { vec_capacity counts.new ≡ vec_capacity counts.old }
{
    let slot = slot as usize;
    if slot < slots {
        lengthen(counts, slot);
        let count = counts[slot];
        counts[slot] = count + 1;
    }
}

/// One arc less leads to a slot. One that is beyond the slots is passed over.
fn take_arc(counts: &mut Vec<u32>, slots: usize, slot: u32)
    requires some { slot < slots → 0 < slice_index counts.old.items slot }
    ensures counted { (s : ℕ) → s < slots → slice_index counts.new.items s + (if slot == s then 1 else 0) ≡ slice_index counts.old.items s }
    ensures length { length counts.new.items ≡ length counts.old.items }
    ensures room { vec_capacity counts.new ≡ vec_capacity counts.old }
{
    let slot = slot as usize;
    if slot < slots {
        let count = counts[slot];
        counts[slot] = count - 1;
    }
}

/// The arcs of a word come.
fn add_word(counts: &mut Vec<u32>, slots: usize, bits: u64)
    requires room { slots ≤ vec_capacity counts.old }
    requires few { (s : ℕ) → slice_index counts.old.items s + 2 < 2 ^ 32 }
    requires within { length counts.old.items ≤ slots }
    ensures counted { (s : ℕ) → s < slots → slice_index counts.new.items s ≡ slice_index counts.old.items s + arcs_in s bits }
    ensures within { length counts.new.items ≤ slots }
    ensures room { vec_capacity counts.new ≡ vec_capacity counts.old }
{
    if let Some(Word::Inner(node)) = unpack(bits) {
        add_arc(counts, slots, node.hi);
        add_arc(counts, slots, node.lo.index());
    }
}

/// The arcs of a word go.
fn take_word(counts: &mut Vec<u32>, slots: usize, bits: u64)
    requires some { (s : ℕ) → s < slots → arcs_in s bits ≤ slice_index counts.old.items s }
    ensures counted { (s : ℕ) → s < slots → slice_index counts.new.items s + arcs_in s bits ≡ slice_index counts.old.items s }
    ensures length { length counts.new.items ≡ length counts.old.items }
    ensures room { vec_capacity counts.new ≡ vec_capacity counts.old }
{
    if let Some(Word::Inner(node)) = unpack(bits) {
        take_arc(counts, slots, node.hi);
        take_arc(counts, slots, node.lo.index());
    }
}

/// The arcs of all words come, where there are none.
fn add_words(counts: &mut Vec<u32>, slots: usize, words: &[u64])
    requires room { slots ≤ vec_capacity counts.old }
    requires none { length counts.old.items ≡ 0 }
    requires few { length words.now < 2 ^ 23 }
    ensures counted { (s : ℕ) → s < slots → slice_index counts.new.items s ≡ arcs_to words.now s }
    ensures within { length counts.new.items ≤ slots }
    ensures room { vec_capacity counts.new ≡ vec_capacity counts.old }
{
    for slot in 0..words.len() {
        add_word(counts, slots, words[slot]);
    }
}

impl ArcCounts {
    /// Of so many slots. What leads to them is not known yet.
    pub fn new(alloc: Global, slots: u32) -> Result<ArcCounts, Memory>
        requires { slots < 2 ^ 23 }
        ensures slots { IfOk result (λ arcs. arcs.slots ≡ slots) }
        ensures unknown { IfOk result (λ arcs. arcs.known ≡ false) }
    {
        let slots = slots as usize;
        Ok(ArcCounts {
            counts: Vec::with_capacity(alloc, slots)?,
            slots,
            known: false,
        })
    }

    /// Whether they are known.
    pub fn is_known(&self) -> bool
        ensures { result ≡ self.now.known }
    {
        self.known
    }

    /// They are not known any more: words may change now without being told of.
    pub fn forget(&mut self)
        ensures { self.new ≡ record self.old { known = false } }
    {
        self.known = false;
    }

    /// Counts the arcs of all words, in one pass over those of the first slots; the others have none.
    pub fn count(&mut self, words: &[u64])
        requires { length words.now < 2 ^ 23 }
        ensures of { (all : ListOf ℕ) → AreFirst words.now all → IsOf self.new all }
        ensures known { self.new.known ≡ true }
        ensures slots { self.new.slots ≡ self.old.slots }
    {
        self.counts.clear();
        add_words(&mut self.counts, self.slots, words);
        self.known = true;
    }

    /// A slot's word becomes another; 0 is none.
    pub fn change(&mut self, was: u64, bits: u64)
        requires { (words : ListOf ℕ) × (slot : ℕ) × IsChange self.old words slot was }
        ensures of { (words : ListOf ℕ) (slot : ℕ) → IsChange self.old words slot was → IsOf self.new (slice_set words slot bits) }
        ensures known { self.new.known ≡ self.old.known }
        ensures slots { self.new.slots ≡ self.old.slots }
    {
        if self.known {
            take_word(&mut self.counts, self.slots, was);
            add_word(&mut self.counts, self.slots, bits);
        }
    }

    /// Whether a node names a slot, where they are known.
    pub fn is_named(&self, slot: u32) -> bool
        requires slot { slot < self.now.slots }
        requires known { self.now.known ≡ true }
        ensures yes { result ≡ true → (words : ListOf ℕ) → IsOf self.now words → IsNamedIn words slot }
        ensures no { result ≡ false → (words : ListOf ℕ) → IsOf self.now words → IsNamedIn words slot → ⊥ }
    {
        self.count_of(slot) > 0
    }

    fn count_of(&self, slot: u32) -> u32
        ensures { result ≡ slice_index self.now.counts slot }
    {
        let slot = slot as usize;
        if slot < self.counts.len() {
            self.counts[slot]
        } else {
            0
        }
    }
}
