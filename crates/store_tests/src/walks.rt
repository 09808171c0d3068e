//! Walks over all words of a store: the plain programs with which tests compare its tables, and by which they see whether a slot may be freed.

ghost use Rattle.std.specs.Prelude.{◌≡◌, ◌≢◌, ℕ, ◌≤◌, ◌<◌, ◌↔◌, ◌⊎◌, IfSome, IfNone, IsTrue, MatchBool, Some, None, length, slice_index, false};
ghost use Rattle.edge_bits.specs.declared.words.Node.{Node};
ghost use Rattle.edge_bits.specs.Permanent.{zero_slot};
ghost use Rattle.edge_bits.specs.Reading.{slots_of};
ghost use Rattle.edge_bits.specs.Words.{unpack_of};
ghost use Rattle.node_slots.specs.Counts.{IsUnnamed};
ghost use Rattle.node_slots.specs.Stores.{slots};

use edge_bits::{Node, Word, ZERO_SLOT, unpack};
use node_slots::PlainStore;

/// Where a word stands, beyond the slots that are told by their number.
fn find(words: &[u64], wanted: &Word) -> Option<usize>
    ensures found { IfSome result (λ s. slots_of words.now s ≡ Some wanted.now) }
    ensures high { IfSome result (λ s. zero_slot ≤ s) }
    ensures within { IfSome result (λ s. s < length words.now) }
    ensures absent { IfNone result ((t : ℕ) → zero_slot ≤ t → slots_of words.now t ≡ Some wanted.now → ⊥) }
{
    for (slot, bits) in words.iter().enumerate() {
        if slot >= ZERO_SLOT as usize && unpack(*bits) == Some(*wanted) {
            return Some(slot);
        }
    }
    None
}

/// The slot of a node.
pub fn find_by_walk(store: &PlainStore, node: Node) -> Option<usize>
    ensures some { IfSome result (λ s. (3 ≤ s) × (slots_of store.now.words s ≡ Some (Word.Inner node))) }
    ensures none { IfNone result ((s : ℕ) → 3 ≤ s → slots_of store.now.words s ≡ Some (Word.Inner node) → ⊥) }
{
    find(store.words(), &Word::Inner(node))
}

/// The bits of a slot, 0 beyond all words.
fn bits_at(words: &[u64], slot: u32) -> u64
    ensures { result ≡ slice_index words.now slot }
{
    let slot = slot as usize;
    if slot < words.len() { words[slot] } else { 0 }
}

/// Whether a slot has a word.
pub fn is_used(store: &PlainStore, slot: u32) -> bool
    ensures { IsTrue result ↔ (slots store.now slot ≡ None → ⊥) }
{
    unpack(bits_at(store.words(), slot)).is_some()
}

/// Whether the bits are those of a node that names the slot.
fn names(bits: u64, slot: u32) -> bool
    ensures no { result ≡ false → (node : Node) → unpack_of bits ≡ Some (Word.Inner node) → (node.hi ≢ slot) × (node.lo.index ≢ slot) }
    ensures yes { IsTrue result → (node : Node) × (unpack_of bits ≡ Some (Word.Inner node)) × ((node.hi ≡ slot) ⊎ (node.lo.index ≡ slot)) }
{
    match unpack(bits) {
        Some(Word::Inner(node)) => node.hi == slot || node.lo.index() == slot,
        _ => false,
    }
}

/// Whether a node names a slot.
pub fn is_named(store: &PlainStore, slot: u32) -> bool
    ensures { MatchBool result (IsUnnamed store.now slot → ⊥) (IsUnnamed store.now slot) }
{
    for bits in store.words() {
        if names(*bits, slot) {
            return true;
        }
    }
    false
}
