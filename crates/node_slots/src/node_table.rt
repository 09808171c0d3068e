//! The words of all slots, by which a node is found, and the slots that are free.

ghost use Rattle.std.specs.Prelude.{◌≡◌, ℕ, ◌+◌, ◌-◌, ◌<◌, ◌≤◌, ◌^◌, IfOk, IfSome, IfNone, count_by, length, slice_index, slice_set, vec_capacity, Some, None, true, false};
ghost use Rattle.edge_bits.specs.Permanent.{first_projection, zero_slot};
ghost use Rattle.edge_bits.specs.Reading.{slots_of};
ghost use Rattle.edge_bits.specs.Words.{IsInRange, pack_of, unpack_of};
ghost use Rattle.node_store.specs.Contents.{is_leaf, is_node_of as is_node_in};
ghost use Rattle.node_slots.specs.Placing.{IsPlaced, HasNoPlace};
ghost use Rattle.held_slots.specs.Arcs.{IsNamedIn};
ghost use Rattle.node_slots.specs.Stores.{is_word, permanent_word};
ghost use Rattle.node_slots.specs.Taking.{ArePacked, AreCounted, AreFree, HasNoZero, IsPut, nodes_of};

use crate::node_counts::NodeCounts;
use edge_bits::{
    Edge, FIRST_PROJECTION, MOST_SLOTS, MOST_VARIABLES, Memory, Node, TRUE_SLOT, Word, ZERO_SLOT,
    unpack,
};
use held_slots::ArcCounts;
use level_table::SlotTable;
use std::alloc::Global;
use std::marker::Model;

/// As many variable numbers as a word has room for.
const VARIABLE_NUMBERS: u32 = 1 << 15;

/// The words of a store's slots with their one unique table (Brace, Rudell and Bryant 1990), and the slots that are free.
#[derive(Drop)]
pub struct NodeTable {
    table: SlotTable,
    // The slots that were taken and freed: the last one is taken first. The room for all of them is there from the opening on.
    freed: Vec<u32>,
    in_use: usize,
    nodes: NodeCounts,
    arcs: ArcCounts,
}

impl Model for NodeTable {
    ghost use Rattle.std.specs.Prelude.{ℕ, List, vec_capacity};
    ghost use Rattle.node_slots.specs.Taking.{IsNodeTable};

    ghost Value = { List ℕ };

    ghost view = { λ t. t.table.words };

    ghost invariant = { λ t. IsNodeTable t.table t.freed.items (vec_capacity t.freed) t.in_use t.nodes t.arcs };
}

/// The bits of a word that is used again.
pub(crate) fn pack(word: &Word) -> u64
    requires { IsInRange word.now }
    ensures layout { result ≡ pack_of word.now }
    ensures reads_back { unpack_of result ≡ Some word.now }
{
    edge_bits::pack(*word)
}

/// Whether the bits are those of a leaf.
fn is_number(bits: u64) -> bool
    ensures { result ≡ is_leaf (unpack_of bits) }
{
    matches!(unpack(bits), Some(Word::Leaf(_)))
}

/// The least slot from this one on with a leaf, if there is one.
pub(crate) fn next_number(words: &[u64], from: u32) -> Option<u32>
    requires { length words.now < 2 ^ 32 }
    ensures found { IfSome result (λ s. (from ≤ s) × (is_leaf (slots_of words.now s) ≡ true)) }
    ensures least { IfSome result (λ s. (t : ℕ) → from ≤ t → t < s → is_leaf (slots_of words.now t) ≡ true → ⊥) }
    ensures none { IfNone result ((t : ℕ) → from ≤ t → is_leaf (slots_of words.now t) ≡ true → ⊥) }
{
    for slot in from as usize..words.len() {
        if is_number(words[slot]) {
            return Some(slot as u32);
        }
    }
    None
}

/// The word of a permanent slot.
fn permanent(slot: u32) -> Word
    requires { slot < first_projection + MOST_VARIABLES }
    ensures word { result ≡ permanent_word slot }
    ensures range { IsInRange result }
{
    match slot {
        0 | 2 | 4 => Word::Leaf(1),
        1 | 3 => Word::Leaf(0),
        _ => Word::Inner(Node {
            var: (slot - FIRST_PROJECTION) as u16,
            hi: TRUE_SLOT,
            lo: Edge::truth(false),
        }),
    }
}

/// Writes the words of the permanent slots into a table without any, and counts their nodes.
fn append_permanent(table: &mut SlotTable, nodes: &mut NodeCounts, vars: u32)
    requires vars { vars ≤ MOST_VARIABLES }
    requires room { first_projection + vars ≤ length table.old.words }
    requires empty { table.old.taken ≡ 0 }
    requires free { (s : ℕ) → slice_index table.old.words s ≡ 0 }
    requires few { length table.old.words < 2 ^ 23 }
    requires nodes { AreCounted table.old.words nodes.old }
    ensures nodes { AreCounted table.new.words nodes.new }
    ensures permanent { (s : ℕ) → s < first_projection + vars → slots_of table.new.words s ≡ Some (permanent_word s) }
    ensures free { (s : ℕ) → first_projection + vars ≤ s → slice_index table.new.words s ≡ 0 }
    ensures taken { table.new.taken ≡ first_projection + vars }
    ensures length { length table.new.words ≡ length table.old.words }
    ensures packed { ArePacked table.new.words }
{
    for slot in 0..FIRST_PROJECTION + vars {
        let word = permanent(slot);
        table.append(pack(&word));
        nodes.add(&word);
    }
}

/// Puts bits that are not 0 into the slot that was freed last, or else into the first that was never taken, if there is one.
fn put(table: &mut SlotTable, freed: &mut Vec<u32>, bits: u64) -> Option<u32>
    requires bits { 0 < bits }
    requires free { AreFree table.old.words table.old.taken freed.old.items }
    ensures put { IfSome result (IsPut table.old.words table.new.words bits) }
    ensures full { IfNone result (HasNoZero table.old.words) }
    ensures same { IfNone result (table.new ≡ table.old) }
    ensures kept { IfNone result (freed.new.items ≡ freed.old.items) }
    ensures free { AreFree table.new.words table.new.taken freed.new.items }
    ensures count { IfSome result (λ _. length freed.new.items + table.old.taken + 1 ≡ length freed.old.items + table.new.taken) }
    ensures room { vec_capacity freed.new ≡ vec_capacity freed.old }
{
    if let Some(slot) = freed.pop() {
        table.fill(slot, bits);
        return Some(slot);
    }
    if table.taken() == table.slots() {
        return None;
    }
    Some(table.append(bits))
}

/// Writes another word into a slot that was taken. The word is not 0.
fn overwrite(table: &mut SlotTable, slot: u32, bits: u64)
    requires bits { 0 < bits }
    requires taken { slot < table.old.taken }
    ensures words { table.new.words ≡ slice_set table.old.words slot bits }
    ensures taken { table.new.taken ≡ table.old.taken }
{
    table.erase(slot);
    table.fill(slot, bits);
}

impl NodeTable {
    /// So many slots, of which the permanent ones have their words. Room for the others is taken and not written to.
    pub fn new(alloc: Global, vars: u32, limit: u32) -> Result<NodeTable, Memory>
        requires vars { vars ≤ MOST_VARIABLES }
        requires least { first_projection + vars ≤ limit }
        requires most { limit ≤ MOST_SLOTS }
        ensures slots_are { IfOk result (λ words. length words ≡ limit) }
        ensures permanent { IfOk result (λ words. (s : ℕ) → s < first_projection + vars → slots_of words s ≡ Some (permanent_word s)) }
        ensures free { IfOk result (λ words. (s : ℕ) → first_projection + vars ≤ s → slots_of words s ≡ None) }
    {
        let mut table = SlotTable::new(alloc, limit)?;
        let freed = Vec::with_capacity(alloc, limit as usize)?;
        let mut nodes = NodeCounts::new(alloc, VARIABLE_NUMBERS)?;
        append_permanent(&mut table, &mut nodes, vars);
        let arcs = ArcCounts::new(alloc, limit)?;
        Ok(NodeTable {
            table,
            freed,
            in_use: FIRST_PROJECTION as usize + vars as usize,
            nodes,
            arcs,
        })
    }

    /// The number of slots, free or not.
    pub fn limit(&self) -> u32
        ensures limit { result ≡ length self.now }
        ensures few { result < 2 ^ 23 }
    {
        self.table.slots()
    }

    /// The number of slots that have a word.
    pub fn in_use(&self) -> usize
        ensures count { result ≡ count_by is_word self.now }
        ensures within { result < 2 ^ 23 }
    {
        self.in_use
    }

    /// The bits of a slot, 0 where it is free.
    pub fn word(&self, slot: u32) -> u64
        ensures { result ≡ slice_index self.now slot }
    {
        self.table.word(slot)
    }

    /// The words of all slots up to the last that was ever taken.
    pub fn words(&self) -> &[u64]
        ensures within { length result.now ≤ length self.now }
        ensures few { length result.now < 2 ^ 23 }
        ensures words { (s : ℕ) → slice_index result.now s ≡ slice_index self.now s }
    {
        self.table.words()
    }

    /// The slot where a word stands, or comes to stand where a slot is free. Who has the word has its bits too: they are told beside it, so
    /// that they need not be read from memory to look for them.
    pub fn place(&mut self, bits: u64, word: Word) -> Option<u32>
        requires range { IsInRange word }
        requires layout { bits ≡ pack_of word }
        requires reads_back { unpack_of bits ≡ Some word }
        ensures placed { IfSome result (IsPlaced self.old self.new word) }
        ensures full { IfNone result (HasNoPlace self.old self.new word) }
    {
        if let Some(slot) = self.table.find(bits) {
            return Some(slot);
        }
        let slot = put(&mut self.table, &mut self.freed, bits)?;
        self.in_use += 1;
        self.nodes.add(&word);
        self.arcs.change(0, bits);
        Some(slot)
    }

    /// Frees a slot that has a word: it is the next that is taken.
    pub fn free(&mut self, slot: u32)
        requires { slots_of self.old slot ≡ None → ⊥ }
        ensures { self.new ≡ slice_set self.old slot 0 }
    {
        let was = self.table.word(slot);
        let Some(word) = unpack(was) else {
            unreachable!()
        };
        self.nodes.remove(&word);
        self.arcs.change(was, 0);
        self.table.erase(slot);
        self.freed.push_reserved(slot);
        self.in_use -= 1;
    }

    /// Puts another word into a slot that has one.
    pub fn rewrite(&mut self, slot: u32, word: Word)
        requires range { IsInRange word }
        requires used { slots_of self.old slot ≡ None → ⊥ }
        ensures reads { slots_of self.new slot ≡ Some word }
        ensures rewritten { self.new ≡ slice_set self.old slot (pack_of word) }
    {
        let was = self.table.word(slot);
        let Some(old) = unpack(was) else {
            unreachable!()
        };
        let bits = pack(&word);
        self.nodes.remove(&old);
        self.arcs.change(was, bits);
        overwrite(&mut self.table, slot, bits);
        self.nodes.add(&word);
    }

    /// Whether a node names a slot. The arcs to the slots are counted here, where they are not counted yet, and kept from then on.
    pub fn is_named(&mut self, slot: u32) -> bool
        requires { slot < length self.old }
        ensures same { self.new ≡ self.old }
        ensures yes { result ≡ true → IsNamedIn self.old slot }
        ensures no { result ≡ false → IsNamedIn self.old slot → ⊥ }
    {
        if !self.arcs.is_known() {
            self.arcs.count(self.table.words());
        }
        self.arcs.is_named(slot)
    }

    /// Counts no arcs any more, until somebody asks again.
    pub fn forget_arcs(&mut self)
        ensures { self.new ≡ self.old }
    {
        self.arcs.forget();
    }

    /// The number of nodes of a variable, and of element e by 16,384 + e.
    pub fn nodes_of(&self, var: u32) -> u32
        requires { var < 2 ^ 15 }
        ensures { result ≡ nodes_of self.now var }
    {
        self.nodes.of(var)
    }
}
