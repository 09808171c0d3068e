//! The words of a table as its holder loaded or stored them, and what is counted of them.

ghost use Rattle.std.specs.Prelude.{◌≡◌, ℕ, ◌+◌, ◌<◌, ◌≤◌, ◌^◌, IfOk, IfNone, IfSome, if◌then◌else◌, length, replicate, slice_index, slice_set, true, false};
ghost use Rattle.std.specs.List.{count_by};
ghost use Rattle.edge_bits.specs.Reading.{slots_of};
ghost use Rattle.edge_bits.specs.Words.{unpack_of};
ghost use Rattle.held_slots.specs.Arcs.{IsNamedIn};
ghost use Rattle.node_store.specs.Contents.{is_leaf};
ghost use Rattle.node_slots.specs.Stores.{is_word};
ghost use Rattle.node_slots.specs.Taking.{nodes_of};

use crate::node_counts::NodeCounts;
use crate::word_table::WordTable;
use edge_bits::{Memory, Word, unpack};
use held_slots::ArcCounts;
use std::alloc::Global;
use std::marker::Model;

/// The words of all slots, how many are in use, how many nodes each variable has, and how many arcs lead to each slot, which are counted once they are asked for.
#[derive(Drop)]
pub struct HeldWords {
    words: WordTable,
    in_use: u32,
    nodes: NodeCounts,
    arcs: ArcCounts,
}

impl Model for HeldWords {
    ghost use Rattle.std.specs.Prelude.{ℕ, List};
    ghost use Rattle.hold_store.specs.Noted.{AreHeldWords};

    ghost Value = { List ℕ };

    ghost view = { λ t. t.words };

    ghost invariant = { λ t. AreHeldWords t.words t.in_use t.nodes t.arcs };
}

/// Whether the bits are those of a leaf.
fn is_number(bits: u64) -> bool
    ensures { result ≡ is_leaf (unpack_of bits) }
{
    matches!(unpack(bits), Some(Word::Leaf(_)))
}

/// The least slot from this one on with a leaf, if there is one.
fn next_number(words: &[u64], from: u32) -> Option<u32>
    requires { length words.now < 2 ^ 32 }
    ensures found { IfSome result (λ s. (from ≤ s) × (is_leaf (slots_of words.now s) ≡ true)) }
    ensures least { IfSome result (λ s. (t : ℕ) → from ≤ t → t < s → is_leaf (slots_of words.now t) ≡ true → ⊥) }
    ensures none { IfNone result ((t : ℕ) → from ≤ t → is_leaf (slots_of words.now t) ≡ true → ⊥) }
{
    for slot in from as usize..words.len() {
        if is_number(words[slot]) {
            return Some(slot as u32);
        }
    }
    None
}

/// As many slots in use, where the word of one becomes another.
fn recounted(in_use: u32, was: u64, bits: u64) -> u32
    requires some { is_word was ≡ true → 0 < in_use }
    requires few { in_use + 1 < 2 ^ 32 }
    ensures { result + (if is_word was then 1 else 0) ≡ in_use + (if is_word bits then 1 else 0) }
{
    match (unpack(was).is_some(), unpack(bits).is_some()) {
        (false, true) => in_use + 1,
        (true, false) => in_use - 1,
        _ => in_use,
    }
}

impl HeldWords {
    /// So many slots, all free.
    pub fn new(alloc: Global, limit: u32) -> Result<HeldWords, Memory>
        requires { limit < 2 ^ 23 }
        ensures { IfOk result (λ w. w ≡ replicate limit 0) }
    {
        let words = WordTable::new(alloc, limit)?;
        let nodes = NodeCounts::new(alloc)?;
        let arcs = ArcCounts::new(alloc, limit)?;
        Ok(HeldWords {
            words,
            in_use: 0,
            nodes,
            arcs,
        })
    }

    /// All slots are free.
    pub fn clear(&mut self)
        ensures { self.new ≡ replicate (length self.old) 0 }
    {
        self.words.clear();
        self.in_use = 0;
        self.nodes.clear();
        self.arcs.forget();
    }

    /// The word of a slot, 0 where it is free.
    pub fn word(&self, slot: u32) -> u64
        ensures { result ≡ slice_index self.now slot }
    {
        self.words.word(slot)
    }

    /// The words of all slots up to the last of which one was set.
    pub fn words(&self) -> &[u64]
        ensures within { length result.now ≤ length self.now }
        ensures few { length result.now < 2 ^ 23 }
        ensures words { (s : ℕ) → slice_index result.now s ≡ slice_index self.now s }
    {
        self.words.words()
    }

    /// The word of a slot is this one from now on, 0 where it is free.
    pub fn set(&mut self, slot: u32, bits: u64)
        requires { slot < length self.old }
        ensures { self.new ≡ slice_set self.old slot bits }
    {
        let was = self.words.word(slot);
        self.nodes.remove(was);
        self.nodes.add(bits);
        self.arcs.change(was, bits);
        self.in_use = recounted(self.in_use, was, bits);
        self.words.write(slot, bits);
    }

    /// How many slots are in use.
    pub fn in_use(&self) -> u32
        ensures { result ≡ count_by is_word self.now }
    {
        self.in_use
    }

    /// How many nodes a variable has.
    pub fn nodes_of(&self, var: u32) -> u32
        requires { var < 2 ^ 15 }
        ensures { result ≡ nodes_of self.now var }
    {
        self.nodes.of(var)
    }

    /// The least slot from this one on with a leaf, if there is one.
    pub fn next_leaf(&self, from: u32) -> Option<u32>
        ensures found { IfSome result (λ s. (from ≤ s) × (is_leaf (slots_of self.now s) ≡ true)) }
        ensures least { IfSome result (λ s. (t : ℕ) → from ≤ t → t < s → is_leaf (slots_of self.now t) ≡ true → ⊥) }
        ensures none { IfNone result ((t : ℕ) → from ≤ t → is_leaf (slots_of self.now t) ≡ true → ⊥) }
    {
        next_number(self.words.words(), from)
    }

    /// Whether a node names a slot. The arcs to the slots are counted where they are not counted yet, and kept from then on.
    pub fn is_named(&mut self, slot: u32) -> bool
        requires { slot < length self.old }
        ensures same { self.new ≡ self.old }
        ensures yes { result ≡ true → IsNamedIn self.old slot }
        ensures no { result ≡ false → IsNamedIn self.old slot → ⊥ }
    {
        if !self.arcs.is_known() {
            self.arcs.count(self.words.words());
        }
        self.arcs.is_named(slot)
    }
}
